//! Lists of commands on a tree, and lines of text on a tree of numbers.
#![tactic(auto)]

pub mod commands;
pub mod error;
mod held;
pub mod lines;
pub mod output;
pub mod reply;
pub mod session;
pub mod walk;
