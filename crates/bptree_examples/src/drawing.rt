//! The tree that lines make, as text for Graphviz.

mod carrying;
mod text;
mod tree;

pub use carrying::carry_out;
use std::alloc::{AllocError, Global};
use sweep_bptree::{BPlusTreeMap, Count};

type Map = BPlusTreeMap<u64, u64, Count>;

/// Prints the text of the tree of a map. Returns whether this succeeded.
pub fn print(rt: &HostRuntime, map: &Map) -> bool {
    match tree::text_of(rt.alloc(), map.tree()) {
        Ok(text) => println!(rt; "{text}").is_ok(),
        Err(_) => false,
    }
}

fn put_pair(alloc: Global, map: &mut Map, key: u64) -> Result<bool, AllocError> {
    let line = format!(in alloc; "put {key} {key}")?;
    carry_out(map, line.as_str().as_bytes())
}

fn put_pairs(alloc: Global, map: &mut Map) -> Result<(), AllocError> {
    for key in 1..66 {
        put_pair(alloc, map, key)?;
    }
    Ok(())
}

fn remove_one(map: &mut Map) -> Result<(), AllocError> {
    for line in ["del 3", "nonsense", "get 3"] {
        carry_out(map, line.as_bytes())?;
    }
    Ok(())
}

// Draws the tree of a map after lines have changed it.
fn drawn(alloc: Global, map: &mut Map) -> Result<String, AllocError> {
    put_pairs(alloc, map)?;
    remove_one(map)?;
    tree::text_of(alloc, map.tree())
}

fn one_drawn(alloc: Global) -> Result<String, AllocError> {
    let mut map = Map::new(alloc)?;
    drawn(alloc, &mut map)
}

/// Prints the text of a tree that lines make: 65 pairs are put, which gives two leaves, and one
/// pair is removed. Lines that are no request, or that change nothing, are ignored. Returns whether
/// this succeeded.
pub fn print_one(rt: &HostRuntime) -> bool {
    match one_drawn(rt.alloc()) {
        Ok(text) => println!(rt; "{text}").is_ok(),
        Err(_) => println!(rt; "a tree: out of memory").is_ok(),
    }
}
