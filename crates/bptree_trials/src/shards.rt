//! A map over shards, and the functions that choose shards.

use crate::calls::{report_if_ok, report_inserted};
use crate::record::Record;
use crate::samples::Sample;
use crate::subject::{Subject, no_call};
use crate::trees::replace;
use crate::walk::bounds;
use crate::words::{Report, Words};
use bptree_arguments::count::Count;
use bptree_map::map::BPlusTreeMap;
use bptree_shard_routing::combining::{
    Part, first_full, last_full, locate, next_full, next_part, prev_full,
};
use bptree_shard_routing::routing::{route, route_below, route_range};
use bptree_sharded_map::map_shard::empty_over;
use bptree_sharded_map::shard::Shard;
use bptree_sharded_map::whole::Shards;
use std::alloc::{AllocError, Global};

/// A shard: a map with counts.
pub type Map<K> = BPlusTreeMap<K, u64, Count>;

/// A map over shards.
#[derive(Drop)]
pub struct Sharded<S: Shard> {
    whole: Shards<S>,
}

fn report_each<T: Report>(items: &[T], words: &mut Words) {
    items.len().report(words);
    for item in items {
        item.report(words);
    }
}

fn report_pairs<K: Sample>(pairs: &[(&K, &u64)], words: &mut Words) {
    for pair in pairs {
        pair.report(words);
    }
}

fn report_found<K: Sample>(found: Result<Vec<(&K, &u64)>, AllocError>, words: &mut Words) -> bool {
    match found {
        Ok(found) => {
            report_pairs(&found, words);
            true
        }
        Err(_) => false,
    }
}

impl<S: Shard<V = u64>> Sharded<S>
where
    S::K: Sample,
{
    fn change(&mut self, alloc: Global, record: &Record, words: &mut Words) -> bool {
        let Ok(key) = S::K::sample(alloc, record.a) else {
            return false;
        };
        match record.member() {
            0 => report_inserted(self.whole.put(key, record.b), words),
            1 => report_if_ok(self.whole.del(&key), words),
            _ => no_call(words),
        }
    }

    // Makes the reads that name a key.
    fn read_at(&self, alloc: Global, record: &Record, words: &mut Words) -> bool {
        let Ok(key) = S::K::sample(alloc, record.a) else {
            return false;
        };
        match record.member() {
            0 => self.whole.get(&key).report(words),
            7 => self.whole.rank(&key).report(words),
            9 => self.whole.next(&key).report(words),
            _ => self.whole.prev(&key).report(words),
        }
        true
    }

    fn read(&self, alloc: Global, record: &Record, words: &mut Words) -> bool {
        match record.member() {
            4 => (self.whole.first(), self.whole.last()).report(words),
            5 => {
                self.whole.len().report(words);
                report_each(self.whole.lengths(), words);
                report_each(self.whole.bounds(), words);
            }
            6 => self.whole.at(record.a as usize).report(words),
            0 | 7 | 9 | 10 => return self.read_at(alloc, record, words),
            _ => return no_call(words),
        }
        true
    }

    fn page(&self, alloc: Global, record: &Record, words: &mut Words) -> bool {
        let (index, most) = (record.a as usize, record.b as usize);
        report_found(self.whole.page(alloc, index, most), words)
    }

    fn range(&self, alloc: Global, record: &Record, words: &mut Words) -> bool {
        let Ok((lo, hi)) = bounds::<S::K>(alloc, record) else {
            return false;
        };
        let most = record.c as usize;
        report_found(
            self.whole.range(alloc, lo.as_ref(), hi.as_ref(), most),
            words,
        )
    }

    fn back(&self, alloc: Global, record: &Record, words: &mut Words) -> bool {
        let Ok(key) = S::K::sample(alloc, record.a) else {
            return false;
        };
        report_found(self.whole.back(alloc, &key, record.b as usize), words)
    }

    fn part(&self, alloc: Global, record: &Record, words: &mut Words) -> bool {
        match record.member() {
            0 => self.page(alloc, record, words),
            1 => self.range(alloc, record, words),
            2 => self.back(alloc, record, words),
            _ => no_call(words),
        }
    }

    fn split(&mut self, alloc: Global, record: &Record) -> bool {
        let Ok(key) = S::K::sample(alloc, record.a) else {
            return false;
        };
        self.whole.split(key).is_ok()
    }

    // Makes the calls that change the number of shards.
    fn move_bounds(&mut self, alloc: Global, record: &Record, words: &mut Words) -> bool {
        match record.member() {
            0 => self.split(alloc, record),
            1 => self.whole.merge(record.a as usize).is_ok(),
            _ => no_call(words),
        }
    }

    // Makes the calls on the present shards. They are apart from the calls that name a map, since a
    // function that names it is expensive to prove for each call.
    fn on_shards(&mut self, alloc: Global, record: &Record, words: &mut Words) -> bool {
        match record.family() {
            0 => self.change(alloc, record, words),
            1 => self.read(alloc, record, words),
            2 => self.part(alloc, record, words),
            8 => self.move_bounds(alloc, record, words),
            _ => no_call(words),
        }
    }
}

impl Report for Part {
    fn report(&self, words: &mut Words) {
        self.shard.report(words);
        self.from.report(words);
        self.count.report(words);
    }
}

// Returns the first numbers, as many as the lowest byte of `d` says.
fn used(numbers: &[usize; 3], d: u64) -> &[usize] {
    &numbers[..((d & 255) as usize).min(3)]
}

// Makes the calls that take the bounds of shards, and keys.
fn route_keys(bounds: &[usize], lo: usize, hi: usize, member: u64, words: &mut Words) {
    match member {
        0 => route(bounds, &lo).report(words),
        1 => route_below(bounds, &lo).report(words),
        2 => route_range(bounds, Some(&lo), None).report(words),
        3 => route_range(bounds, None, Some(&hi)).report(words),
        _ => route_range(bounds, Some(&lo), Some(&hi)).report(words),
    }
}

// Makes the calls that take the lengths of shards, and the index of a shard.
fn find_full(lengths: &[usize], shard: usize, member: u64, words: &mut Words) -> bool {
    match member {
        7 => first_full(lengths).report(words),
        8 => last_full(lengths).report(words),
        9 if shard < lengths.len() => next_full(lengths, shard).report(words),
        10 if shard <= lengths.len() => prev_full(lengths, shard).report(words),
        _ => return no_call(words),
    }
    true
}

// Makes the calls that take bounds or lengths. `d` has a number from bit 8 on, and another one from
// bit 32 on.
fn choose(record: &Record, words: &mut Words) -> bool {
    let numbers = [record.a as usize, record.b as usize, record.c as usize];
    let numbers = used(&numbers, record.d);
    let first = ((record.d >> 8) & 0xff_ffff) as usize;
    let second = (record.d >> 32) as usize;
    match record.member() {
        0..=4 => route_keys(numbers, first, second, record.member(), words),
        5 => locate(numbers, first).report(words),
        6 => next_part(numbers, first, second).report(words),
        member => return find_full(numbers, first, member, words),
    }
    true
}

fn keys_at<K: Sample>(alloc: Global, numbers: &[usize]) -> Result<Vec<K>, AllocError> {
    let mut keys = Vec::new(alloc);
    for number in numbers {
        keys.push(K::sample(alloc, *number as u64)?)?;
    }
    Ok(keys)
}

// Returns empty shards between the bounds of a record.
fn begun<K: Sample>(alloc: Global, record: &Record) -> Result<Shards<Map<K>>, AllocError> {
    let numbers = [record.a as usize, record.b as usize, record.c as usize];
    empty_over(alloc, keys_at(alloc, used(&numbers, record.d))?)
}

impl<K: Sample> Subject for Sharded<Map<K>> {
    fn begin(alloc: Global) -> Result<Self, AllocError> {
        let whole = empty_over(alloc, Vec::new(alloc))?;
        Ok(Sharded { whole })
    }

    fn call(&mut self, alloc: Global, record: &Record, words: &mut Words) -> bool {
        match record.family() {
            3 if record.member() == 4 => replace(&mut self.whole, begun(alloc, record)),
            9 => choose(record, words),
            _ => self.on_shards(alloc, record, words),
        }
    }
}
