//! A pair, as C has it.

/// A key and its value.
#[repr(C)]
#[derive(Clone, Copy)]
pub struct Pair {
    /// The key.
    pub key: u64,
    /// The value.
    pub value: u64,
}
