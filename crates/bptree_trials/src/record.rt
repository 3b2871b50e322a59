//! A call, as a caller sends it.

/// The number of bytes of a record.
pub const RECORD: usize = 40;

/// A call and its arguments. The upper bits of `call` select the family, and the lower four the
/// call.
#[derive(Clone, Copy)]
pub struct Record {
    pub call: u64,
    pub a: u64,
    pub b: u64,
    pub c: u64,
    pub d: u64,
}

// Returns the number in the eight bytes from an index on.
fn number_at(bytes: &[u8; RECORD], index: usize) -> u64 {
    let mut number: u64 = 0;
    for offset in 0..8 {
        let byte = bytes.get(index.wrapping_add(offset)).copied().unwrap_or(0);
        number |= (byte as u64) << (8 * offset);
    }
    number
}

impl Record {
    /// Reads a record: five numbers of eight bytes each, the least byte first.
    pub fn read(bytes: &[u8; RECORD]) -> Record {
        Record {
            call: number_at(bytes, 0),
            a: number_at(bytes, 8),
            b: number_at(bytes, 16),
            c: number_at(bytes, 24),
            d: number_at(bytes, 32),
        }
    }

    /// The family of the call.
    pub fn family(&self) -> u64 {
        self.call >> 4
    }

    /// The call within its family.
    pub fn member(&self) -> u64 {
        self.call & 15
    }
}
