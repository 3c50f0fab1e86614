//! Why a term could not be written or read.

/// Why a term was not written.
#[derive(Clone, Copy, Debug, PartialEq, Eq)]
pub enum EncodeErr {
    /// It nests over more than 128 levels.
    TooDeep,
    /// Its text has more than 2^28 bytes.
    TooLong,
    /// Memory ran out.
    Memory,
}

/// Why a text was not read. A place counts the bytes before it.
#[derive(Clone, Copy, Debug, PartialEq, Eq)]
pub enum WireErr {
    /// No text goes on so at this place, or it ends there too early.
    Bad(usize),
    /// This tag, at this place, is of a term that is not kept here.
    Outside(u8, usize),
    /// The number at this place does not fit 128 bits.
    WideInt(usize),
    /// The term at this place is on level 129.
    TooDeep(usize),
    /// Memory ran out.
    Memory,
}
