//! The error of `retain`.

/// Why `retain` failed.
#[derive(Debug, Drop)]
pub enum RetainError<P> {
    /// The first allocations failed. The closure was not called, and nothing has changed.
    NotMade,
    /// A later allocation, a clone of a key or a summary failed, after the closure was called for
    /// every pair or key. The error has those that stay, in their order. The map or set is empty.
    NotStored(P),
}
