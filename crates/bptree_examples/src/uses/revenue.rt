//! Sales over a span of days, by sums of the amounts in the keys.
ghost use Rattle.std.specs.Prelude.{◌≡◌, IfOk};
ghost use Rattle.std.proofs.Common.{rules};
ghost use Rattle.bptree_examples.specs.Sales.{start_of_day, sum_of_amounts, taken_between};

use crate::filling::filled;
use std::alloc::{AllocError, Global};
use sweep_bptree::{Argument, BPlusTreeMap, Key};

/// A sale. Its amount is in the key, since a summary is computed from keys alone. The day and the
/// number come first, and therefore determine the order.
#[derive(Clone, Copy, PartialEq, Eq, PartialOrd, Ord)]
pub struct Sale {
    /// The day.
    pub day: u32,
    /// The number of the sale on that day.
    pub number: u32,
    /// The amount that was paid.
    pub amount: u64,
}

impl Key for Sale {
    ghost clone_is_equal = { Prim.search rules };
}

/// The sum of the amounts of the sales below a node. It saturates at the greatest `u64`.
#[derive(Clone, Copy, Default)]
pub struct Revenue(pub u64);

// Returns the sum of the amounts of some sales.
fn amounts_in(sales: &[Sale]) -> u64
    ensures { result ≡ sum_of_amounts sales.now }
{
    let mut total = 0u64;
    for sale in sales {
        total = total.saturating_add(sale.amount);
    }
    total
}

/// Nothing allocates, so that no call fails.
impl Argument<Sale> for Revenue {
    ghost is_summary = { λ revenue sales. revenue.0 ≡ sum_of_amounts sales };

    fn from_leaf(keys: &[Sale]) -> Result<Revenue, AllocError> {
        Ok(Revenue(amounts_in(keys)))
    }

    fn from_inner(_keys: &[Sale], arguments: &[Revenue]) -> Result<Revenue, AllocError> {
        let mut total = 0u64;
        for argument in arguments {
            total = total.saturating_add(argument.0);
        }
        Ok(Revenue(total))
    }

    ghost default_is_summary = { λ _ h. Prim.search rules };
}

/// Sales as keys, without values.
pub type Ledger = BPlusTreeMap<Sale, (), Revenue>;

/// Returns a ledger with `each` sales on each of some days, from day 1 on. Each amount is the
/// number of its day.
pub fn new_ledger(alloc: Global, days: u32, each: u32) -> Result<Ledger, AllocError> {
    let mut sales = Vec::new(alloc);
    for day in 1..days.saturating_add(1) {
        for number in 0..each {
            let amount = u64::from(day);
            let sale = Sale {
                day,
                number,
                amount,
            };
            sales.push((sale, ()))?;
        }
    }
    filled(alloc, &sales)
}

// Returns the least possible sale of a day: no sale of the day is before it.
fn start_of(day: u32) -> Sale
    ensures { result ≡ start_of_day day }
{
    Sale {
        day,
        number: 0,
        amount: 0,
    }
}

/// Returns the sum of the amounts from one day on and before another.
///
/// The map keeps `Revenue`, and `range_argument` computes the sum. O(log n): one root-to-leaf
/// descent for each day, and one addition for each child between the two paths. It reads the sales
/// of two leaves, however many there are. It fails only if allocating the room for two sums fails.
pub fn taken(ledger: &Ledger, from: u32, to: u32) -> Result<u64, AllocError>
    ensures { IfOk result (λ it. it ≡ taken_between ⟦<Sale as Ord>⟧.cmp ledger.now from to) }
{
    let lo = start_of(from);
    let hi = start_of(to);
    let revenue = ledger.range_argument(Some(&lo), Some(&hi))?;
    Ok(revenue.0)
}

/// Returns four sums of amounts, of ten sales on each day of a year: in all, in February, on no
/// day, and from the last day on.
pub fn run(alloc: Global) -> Result<[u64; 4], AllocError> {
    let ledger = new_ledger(alloc, 365, 10)?;
    outcomes(&ledger)
}

fn outcomes(ledger: &Ledger) -> Result<[u64; 4], AllocError> {
    Ok([
        taken(ledger, 1, 366)?,
        taken(ledger, 32, 60)?,
        taken(ledger, 100, 100)?,
        taken(ledger, 365, 1000)?,
    ])
}
