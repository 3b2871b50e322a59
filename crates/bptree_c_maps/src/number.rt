//! A number as a probe.

use bptree_probes::probe::Probe;
use std::cmp::Ordering;

/// A number, which represents itself as a key.
#[derive(Clone, Copy)]
pub(crate) struct Number {
    pub(crate) key: u64,
}

impl Probe<u64> for Number {
    ghost meant = { λ number. number.key };

    fn order_of(&self, key: &u64) -> Ordering {
        key.cmp(&self.key)
    }
}
