//! What the functions for C do: maps behind handles, and calls of these maps. The functions
//! themselves are in `bptree_c`, which is proved again whenever its archive is built.
#![tactic(auto)]

pub mod batch;
pub mod bytes;
pub mod columns;
pub mod dict;
pub mod dict_ends;
pub mod dict_handle;
pub mod dict_load;
pub mod dict_many;
pub mod handle;
pub mod making;
pub mod many;
mod number;
pub mod pair;
mod raw_box;
pub mod reading;
pub mod record;
pub mod results;
pub mod writing;
