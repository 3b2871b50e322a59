//! Descents of a tree that are led by summaries, visitors and cached positions.
#![tactic(auto)]

pub mod by_argument;
pub mod neighbours;
pub mod visiting;
