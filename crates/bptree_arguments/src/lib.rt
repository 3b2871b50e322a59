//! Summaries of the keys below each child of an inner node, and the visitors that read them.
#![tactic(auto)]

pub mod argument;
pub mod count;
pub mod group;
pub mod group_order;
pub mod group_size;
pub mod visit;
