//! Callers of paths and of entries.
ghost use Rattle.std.specs.Prelude.{◌≡◌, ◌<◌, suc, true, false, length};

use bptree_keys::entry_ref::{EntryRef, VisitStack};
use bptree_keys::node_id::{InnerNodeId, LeafNodeId, NodeId};

// A new path is empty: its length is 0, `is_empty` returns true, and nothing can be popped.
fn starts_empty() -> (usize, bool, Option<(InnerNodeId, usize, NodeId)>)
    ensures { result ≡ (0, true, None) }
{
    let mut stack = VisitStack::new();
    let (len, is_empty) = (stack.len(), stack.is_empty());
    (len, is_empty, stack.pop())
}

// The entry that was pushed last is popped first, and the path is as before.
fn pops_what_was_pushed(
    stack: &mut VisitStack,
    id: InnerNodeId,
    offset: usize,
    child: NodeId,
) -> Option<(InnerNodeId, usize, NodeId)>
    requires { length stack.old < 15 }
    ensures entry { result ≡ Some (id, offset, child) }
    ensures path { stack.new ≡ stack.old }
{
    stack.push(id, offset, child);
    stack.pop()
}

// The last entry of a path is the one that was pushed last.
fn shows_what_was_pushed(
    stack: &mut VisitStack,
    id: InnerNodeId,
    offset: usize,
    child: NodeId,
) -> Option<(InnerNodeId, usize, NodeId)>
    requires { length stack.old < 15 }
    ensures { result ≡ Some (id, offset, child) }
{
    stack.push(id, offset, child);
    stack.last()
}

// The last entry of a path is the one that is popped next. For an empty path both are `None`.
fn pops_what_it_shows(
    mut stack: VisitStack,
) -> (
    Option<(InnerNodeId, usize, NodeId)>,
    Option<(InnerNodeId, usize, NodeId)>,
)
    ensures { result.0 ≡ result.1 }
{
    let last = stack.last();
    (last, stack.pop())
}

// Pushing an entry makes a path longer by one, and the path is not empty.
fn grows_by_one(
    stack: &mut VisitStack,
    id: InnerNodeId,
    offset: usize,
    child: NodeId,
) -> (usize, usize, bool)
    requires { length stack.old < 15 }
    ensures len { result.1 ≡ suc result.0 }
    ensures is_empty { result.2 ≡ false }
{
    let before = stack.len();
    stack.push(id, offset, child);
    (before, stack.len(), stack.is_empty())
}

// An entry that is detached from its tree, and then attached to another, keeps its path, its leaf
// and its slot there.
fn goes_into_another_tree<T: Drop, U>(
    tree: T,
    other: U,
    inner_stack: VisitStack,
    leaf_id: LeafNodeId,
    offset: usize,
) -> EntryRef<U>
    ensures tree { result.tree ≡ other }
    ensures path { result.inner_stack ≡ inner_stack }
    ensures leaf { result.leaf_id ≡ leaf_id }
    ensures offset { result.offset ≡ offset }
{
    EntryRef::new(tree, inner_stack, leaf_id, offset)
        .to_detached()
        .to_ref(other)
}
