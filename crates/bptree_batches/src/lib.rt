//! Look-ups of many keys at once: the descents of 16 keys are interleaved, so that the processor
//! can fetch several nodes at a time.
#![tactic(auto)]

mod copies;
mod finds;
mod groups;
mod leaves;
pub mod many;
mod ranks;
mod selected;
mod selects;
