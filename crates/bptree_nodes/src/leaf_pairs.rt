//! The pairs of a leaf that is consumed pair by pair.
ghost use Rattle.std.specs.Prelude.{◌≡◌, length, []};
ghost use Rattle.std.specs.List.{zip};
ghost use Rattle.std.specs.Map.Iter.{TakesFirst, TakesLast};

use std::alloc::Global;
use std::marker::Model;
use std::vec;

/// The pairs that are left of a leaf, in the order of their keys. A step from either end moves no
/// other pair and allocates nothing. A drop of the iterator drops the pairs that are left.
#[derive(Drop)]
pub struct LeafPairs<K, V> {
    keys: vec::IntoIter<K>,
    values: vec::IntoIter<V>,
}

impl<K, V> Model for LeafPairs<K, V> {
    ghost use Rattle.std.specs.Prelude.{◌≡◌, List, length};
    ghost use Rattle.std.specs.List.{zip};
    ghost use Rattle.std.specs.Vec.Iter.{into_iter_items};

    ghost Value = { List (K × V) };

    ghost view = { λ it. zip (into_iter_items it.keys) (into_iter_items it.values) };

    ghost invariant = { λ it. length (into_iter_items it.values) ≡ length (into_iter_items it.keys) };
}

impl<K: Drop, V: Drop> LeafPairs<K, V> {
    /// Creates an iterator over no pairs. It allocates nothing.
    pub fn new(alloc: Global) -> Self
        ensures { result ≡ [] }
    {
        LeafPairs {
            keys: Vec::new(alloc).into_iter(),
            values: Vec::new(alloc).into_iter(),
        }
    }

    pub(crate) fn of(keys: Vec<K>, values: Vec<V>) -> Self
        requires { length values.items ≡ length keys.items }
        ensures { result ≡ zip keys.items values.items }
    {
        LeafPairs {
            keys: keys.into_iter(),
            values: values.into_iter(),
        }
    }

    /// Removes and returns the first pair that is left.
    pub fn next(&mut self) -> Option<(K, V)>
        ensures { TakesFirst (λ pair. pair) self.old result self.new }
    {
        match (self.keys.next(), self.values.next()) {
            (Some(key), Some(value)) => Some((key, value)),
            _ => None,
        }
    }

    /// Removes and returns the last pair that is left.
    pub fn next_back(&mut self) -> Option<(K, V)>
        ensures { TakesLast (λ pair. pair) self.old result self.new }
    {
        let key = self.keys.next_back()?;
        let value = self.values.next_back()?;
        Some((key, value))
    }
}
