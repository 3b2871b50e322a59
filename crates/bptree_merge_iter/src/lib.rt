//! The merge of two ascending sources.
#![tactic(auto)]

pub mod merge_iter;
