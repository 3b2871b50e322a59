//! Operations that move many pairs at once: all memory is allocated first, and then whole leaves
//! move.
#![tactic(auto)]

mod ahead;
mod around;
mod cut;
pub mod filling;
mod gap;
pub mod joining;
pub mod moving;
pub mod removing;
mod side;
pub mod splitting;
pub mod tail;
pub mod weaving;
