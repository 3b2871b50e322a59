//! An ordered set, its iterators, the errors of calls that move many keys, and laws to cite.

pub use bptree_set::set::{
    AppendError, BPlusTreeSet, Difference, Intersection, IntoIter, Iter, RetainError,
    SymmetricDifference, Union, laws_of_keys, laws_of_two_sets, laws_of_union,
};
