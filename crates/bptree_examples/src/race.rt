//! A race: times in seconds, each with the number of the runner.

use std::alloc::{AllocError, Global};
use sweep_bptree::{BPlusTreeMap, Count};

type Race = BPlusTreeMap<u64, u64, Count>;

type RaceResults = (Option<u64>, Option<usize>, Vec<u64>, Option<u64>);

/// Returns the fastest runner, the index of a time, the runners who took from 570 to 620 seconds,
/// and the first runner on the second page of two.
pub fn run(alloc: Global) -> Result<RaceResults, AllocError> {
    let mut race = Race::new(alloc)?;
    for (time, runner) in [(583, 7), (561, 3), (610, 5)] {
        race.insert(time, runner).or(Err(AllocError))?;
    }
    outcomes(alloc, &race)
}

fn outcomes(alloc: Global, race: &Race) -> Result<RaceResults, AllocError> {
    let fastest = race.get_index(0).map(|(_, runner)| *runner);
    let index = race.get_index_of(&583);
    let second_page = race.page(1, 2)?.next().map(|(_, runner)| *runner);
    let mut between = Vec::new(alloc);
    for (_, runner) in race.range_within(570..620) {
        between.push(*runner)?;
    }
    Ok((fastest, index, between, second_page))
}
