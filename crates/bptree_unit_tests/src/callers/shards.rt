//! Callers of the functions and laws of shards.

mod combining;
mod keys;
mod moves;
mod routing;
mod whole;
