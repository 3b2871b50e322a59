//! A pair of a map from byte strings as C has it, without the bytes of its key.

/// The length of a key, and its value.
#[repr(C)]
#[derive(Clone, Copy)]
pub struct Record {
    /// The number of bytes of the key.
    pub length: usize,
    /// The value.
    pub value: u64,
}
