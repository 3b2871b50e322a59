//! An index of rows by one of their values, which is kept consistent with the rows.
ghost use Rattle.std.specs.Prelude.{◌≡◌, ◌≢◌, OnErr, OnOk, IfOk, IsTrue, None};
ghost use Rattle.std.specs.Ordering.{nat_cmp};
ghost use Rattle.std.proofs.Common.{rules};
ghost use Rattle.bptree_keys.specs.Contents.{has, put, value};
ghost use Rattle.bptree_examples.specs.EntryMoves.{FollowsRow, RowHas, StaysOrPuts, moved};

use crate::filling::filled;
use std::alloc::{AllocError, Global};
use sweep_bptree::{BPlusTreeMap, Key};

/// A value and the number of a row that has it.
#[derive(Clone, Copy, PartialEq, Eq, PartialOrd, Ord)]
pub struct Entry {
    /// The value of the row.
    pub value: u64,
    /// The number of the row.
    pub row: u64,
}

impl Key for Entry {
    ghost clone_is_equal = { Prim.search rules };
}

/// The rows in the order of their values.
pub type Index = BPlusTreeMap<Entry, ()>;

/// The value of each row, by the row's number.
pub type Rows = BPlusTreeMap<u64, u64>;

/// Returns an index of rows with their values.
pub fn new_index(alloc: Global, values: &[(u64, u64)]) -> Result<Index, AllocError> {
    let mut entries = Vec::new(alloc);
    for (row, value) in values {
        let entry = Entry {
            value: *value,
            row: *row,
        };
        entries.push((entry, ()))?;
    }
    filled(alloc, &entries)
}

/// Inserts a new entry, and removes an old one. If both are the same entry, it is inserted and
/// stays.
///
/// O(log n): `insert` and `remove` are one root-to-leaf descent each. The new entry is inserted
/// first, since only the insertion allocates nodes: if it fails, the index is unchanged. If
/// removing the old entry fails, the new one is removed again. If this fails too, the new entry
/// stays.
pub fn move_entry(index: &mut Index, old: Entry, new: Entry) -> Result<(), AllocError>
    ensures moved { OnOk result (old ≢ new → index.new ≡ moved ⟦<Entry as Ord>⟧.cmp tt index.old old new) }
    ensures kept { OnOk result (old ≡ new → index.new ≡ put ⟦<Entry as Ord>⟧.cmp index.old new tt) }
    ensures unchanged { OnErr result (StaysOrPuts ⟦<Entry as Ord>⟧.cmp index.old index.new new) }
{
    index.recall();
    let was = match index.insert(new, ()) {
        Ok(was) => was,
        Err(_) => return Err(AllocError),
    };
    if old == new {
        return Ok(());
    }
    match index.remove(&old) {
        Ok(_) => Ok(()),
        Err(error) => {
            if was.is_none() {
                let _ = index.remove(&new);
            }
            Err(error)
        }
    }
}

/// Gives a row another value, and returns whether the row is present.
///
/// O(log n): it calls `get`, `move_entry` and `insert`, which searches once and never fails for a
/// present row. The index is therefore changed first: if this fails, the row keeps its value.
pub fn set_value(rows: &mut Rows, index: &mut Index, row: u64, now: u64) -> Result<bool, AllocError>
    ensures there { IfOk result (λ it. it ≡ has nat_cmp rows.old row) }
    ensures row { IfOk result (λ it. IsTrue it → rows.new ≡ put nat_cmp rows.old row now) }
    ensures entry { OnOk result (FollowsRow ⟦<Entry as Ord>⟧.cmp rows.old row now index.old index.new) }
    ensures absent { OnOk result (value nat_cmp rows.old row ≡ None → index.new ≡ index.old) }
    ensures same { OnOk result (RowHas rows.old row now → index.new ≡ index.old) }
    ensures unchanged { OnErr result (rows.new ≡ rows.old) }
{
    let Some(old) = rows.get(&row).copied() else {
        return Ok(false);
    };
    if old != now {
        move_entry(index, Entry { value: old, row }, Entry { value: now, row })?;
    }
    match rows.insert(row, now) {
        Ok(_) => Ok(true),
        Err(_) => unreachable!(),
    }
}

/// Returns the rows in the order of their values.
pub fn rows_by_value(alloc: Global, index: &Index) -> Result<Vec<u64>, AllocError> {
    let mut rows = Vec::new(alloc);
    for (entry, _) in index.iter() {
        rows.push(entry.row)?;
    }
    Ok(rows)
}

/// Returns three rows by their values, before one gets another value and after, and whether a
/// fourth row is present.
pub fn run(alloc: Global) -> Result<(Vec<u64>, Vec<u64>, bool), AllocError> {
    let values = [(3, 60), (1, 40), (2, 50)];
    let mut rows = filled(alloc, &values)?;
    let mut index = new_index(alloc, &values)?;
    outcomes(alloc, &mut rows, &mut index)
}

fn outcomes(
    alloc: Global,
    rows: &mut Rows,
    index: &mut Index,
) -> Result<(Vec<u64>, Vec<u64>, bool), AllocError> {
    let before = rows_by_value(alloc, index)?;
    set_value(rows, index, 1, 70)?;
    let fourth = set_value(rows, index, 4, 10)?;
    Ok((before, rows_by_value(alloc, index)?, fourth))
}
