//! Proved callers of maps and sets, and of a tree over any store. What each of them ensures follows
//! from the contracts of the functions that it calls.

mod changes;
mod cloning;
mod compared;
mod cursors;
mod equals;
mod headed;
mod iteration;
mod loading;
mod many;
mod maps;
mod moves;
mod nodes;
mod owning;
mod pages;
mod probes;
mod queries;
mod ranges;
mod reads;
mod removals;
mod replacing;
mod sets;
mod thinned;
mod together;
mod updates;
mod visits;
