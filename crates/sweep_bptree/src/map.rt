//! An ordered map, its iterators, the errors of calls that move many pairs, and laws to cite.

pub use bptree_map::map::{
    AppendError, BPlusTreeMap, IntoIter, IntoKeys, IntoValues, Iter, Keys, RetainError, Values,
    law_of_from_iter, laws_of_pages,
};
