//! An index of items in groups: keys of two parts, of which the first is the group.
ghost use Rattle.std.specs.Prelude.{◌≡◌, IfOk, IfErr, Some, length};
ghost use Rattle.std.proofs.Common.{rules};
ghost use Rattle.bptree_arguments.specs.declared.visit.DescendError.TheVariants.{OutOfMemory};
ghost use Rattle.bptree_examples.specs.Items.{items_in, number_at};

use crate::filling::filled;
use std::alloc::{AllocError, Global};
use sweep_bptree::{BPlusTreeMap, DescendError, ExtractGroupSize, FromRef, GroupCount, Key};

/// An item of a group. The items of a group are adjacent.
#[derive(Clone, Copy, PartialEq, Eq, PartialOrd, Ord)]
pub struct Item {
    /// The group.
    pub group: u32,
    /// The number of the item.
    pub number: u32,
}

impl Key for Item {
    ghost clone_is_equal = { Prim.search rules };
}

/// The group of an item. `Tuple2` is the corresponding type for a pair as a key.
#[derive(Clone, Copy, PartialEq, Eq, PartialOrd, Ord)]
pub struct Group(pub u32);

impl Key for Group {
    ghost clone_is_equal = { Prim.search rules };
}

impl FromRef<Item> for Group {
    ghost group_of = { λ item. record { 0 = item.group } };

    fn from_ref(input: &Item) -> Result<Self, AllocError> {
        Ok(Group(input.group))
    }

    ghost keeps_order = { λ x y h. Prim.search rules };
}

/// Items by their groups, with the sizes of groups.
pub type Items = BPlusTreeMap<Item, (), GroupCount<Group>>;

/// Returns an index of items, each with its group.
pub fn new_items(alloc: Global, all: &[(u32, u32)]) -> Result<Items, AllocError> {
    let mut items = Vec::new(alloc);
    for (group, number) in all {
        let item = Item {
            group: *group,
            number: *number,
        };
        items.push((item, ()))?;
    }
    filled(alloc, &items)
}

/// Returns the number of items of a group, which is 0 if the group has no item.
///
/// The map keeps `GroupCount`, and `descend_visit` with `ExtractGroupSize` counts the items.
/// O(log n): one root-to-leaf descent, with at most two comparisons of groups for each child. It fails
/// only if making a group of a key fails, which never happens here.
pub fn group_len(items: &Items, group: u32) -> Result<Option<usize>, DescendError>
    ensures counted { IfOk result (λ it. it ≡ Some (length (items_in group items.now))) }
    ensures unchanged { IfErr result (λ error. error ≡ OutOfMemory) }
{
    items.recall();
    items.descend_visit(ExtractGroupSize::new(Group(group)))
}

/// Returns the item at an index in a group, or `None` past the group's last item.
///
/// The map keeps `GroupCount`, and `get_by_argument` finds the item. O(log n): one root-to-leaf
/// descent, with at most two comparisons of groups for each child. It fails only if making a group
/// of a key fails, which never happens here.
pub fn item_at(items: &Items, group: u32, index: usize) -> Result<Option<u32>, AllocError>
    ensures { IfOk result (λ number. number ≡ number_at group items.now index) }
{
    match items.get_by_argument((Group(group), index))? {
        Some((item, _)) => Ok(Some(item.number)),
        None => Ok(None),
    }
}

fn counted_items(items: &Items, group: u32) -> Result<usize, AllocError> {
    match group_len(items, group) {
        Ok(size) => Ok(size.unwrap_or(0)),
        Err(_) => Err(AllocError),
    }
}

/// Returns the sizes of three groups, and the items at three indices in groups.
pub fn run(alloc: Global) -> Result<([usize; 3], [Option<u32>; 3]), AllocError> {
    let items = new_items(alloc, &[(3, 6), (1, 12), (1, 10), (3, 5), (1, 11)])?;
    outcomes(&items)
}

fn outcomes(items: &Items) -> Result<([usize; 3], [Option<u32>; 3]), AllocError> {
    let sizes = [
        counted_items(items, 1)?,
        counted_items(items, 2)?,
        counted_items(items, 3)?,
    ];
    let found = [
        item_at(items, 1, 2)?,
        item_at(items, 3, 0)?,
        item_at(items, 3, 2)?,
    ];
    Ok((sizes, found))
}
