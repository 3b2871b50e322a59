//! A map from numbers to numbers and a map from byte strings to numbers, both with indices, as
//! functions for callers in C. `include/sweep_bptree.h` declares them.
//!
//! A caller keeps a `Handle`: a pointer to a map on the heap, or a null pointer. Each function
//! calls the map at its address; its contract is the map's own, stated over the list that the
//! handle holds. A call that reads writes neither to the handle nor to the map. A `DictHandle` is
//! such a handle for a map from byte strings.
#![tactic(auto)]

mod batch;
mod callers;
mod columns;
mod dict;
mod dict_callers;
mod dict_ends;
mod dict_load;
mod dict_many;
mod making;
mod many;
mod reading;
mod version;
mod writing;

pub use batch::{
    bptree_at_many, bptree_contains_many, bptree_del_many, bptree_get_many, bptree_put_many,
    bptree_rank_many,
};
pub use bptree_c_maps::dict_handle::DictHandle;
pub use bptree_c_maps::handle::Handle;
pub use bptree_c_maps::pair::Pair;
pub use bptree_c_maps::record::Record;
pub use columns::bptree_copy;
pub use dict::{
    bptree_dict_at, bptree_dict_clear, bptree_dict_clone, bptree_dict_contains, bptree_dict_del,
    bptree_dict_first, bptree_dict_free, bptree_dict_get, bptree_dict_last, bptree_dict_len,
    bptree_dict_new, bptree_dict_next, bptree_dict_prev, bptree_dict_put, bptree_dict_rank,
};
pub use dict_ends::{bptree_dict_pop_first, bptree_dict_pop_last};
pub use dict_load::{bptree_dict_del_at, bptree_dict_load};
pub use dict_many::{
    bptree_dict_page, bptree_dict_page_back, bptree_dict_range_len, bptree_dict_values,
};
pub use making::{bptree_clear, bptree_clone, bptree_free, bptree_load, bptree_new};
pub use many::{bptree_page, bptree_range, bptree_range_back};
pub use reading::{
    bptree_at, bptree_contains, bptree_first, bptree_get, bptree_last, bptree_len, bptree_next,
    bptree_prev, bptree_range_len, bptree_rank,
};
pub use version::bptree_version;
pub use writing::{bptree_del, bptree_del_at, bptree_pop_first, bptree_pop_last, bptree_put};
