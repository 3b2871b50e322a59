//! The errors with which serving ends early.
ghost use Rattle.std.specs.Prelude.{◌≡◌, Some, IsOk, IsErrOf};
ghost use Rattle.bptree_commands.specs.Faults.{status_of, fault_text};

use std::fmt;

/// The reason why serving ended before the replies to the whole input were written. The
/// discriminant of a variant is the exit status of a program that ends with it.
#[derive(Clone, Copy, Debug, PartialEq, Eq)]
pub enum ServeError {
    /// A read, a write or the flush failed, a write took no byte, or `u64::MAX` reads met no end.
    Io = 1,
    /// An allocation failed.
    OutOfMemory = 3,
}

impl ServeError {
    /// Returns the exit status of a program that ends with this error.
    ///
    /// O(1). It allocates nothing and cannot fail.
    pub fn status(&self) -> u8
        ensures { result ≡ status_of self.now }
    {
        *self as u8
    }
}

/// Returns the exit status of a program that served with this result: 0 if the replies to all lines
/// were written.
///
/// O(1). It allocates nothing and cannot fail.
pub fn exit_status(served: &Result<(), ServeError>) -> u8
    ensures ok { IsOk served.now → result ≡ 0 }
    ensures io { IsErrOf served.now ServeError.Io → result ≡ 1 }
    ensures out_of_memory { IsErrOf served.now ServeError.OutOfMemory → result ≡ 3 }
{
    match served {
        Ok(()) => 0,
        Err(error) => error.status(),
    }
}

impl fmt::Display for ServeError {
    ghost output = { λ error. Some (fault_text error) };

    fn fmt<W: fmt::Write>(&self, f: &mut fmt::Formatter<W>) -> fmt::Result {
        match self {
            ServeError::Io => f.write_str("i/o fault"),
            ServeError::OutOfMemory => f.write_str("out of memory"),
        }
    }
}
