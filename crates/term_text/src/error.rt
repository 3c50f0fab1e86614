//! Why a term could not be read or printed.

/// Why a term was not read. A place counts the bytes before it. Only want of memory keeps a term from being printed.
#[derive(Clone, Copy, Debug, PartialEq, Eq)]
pub enum TextErr {
    /// No text goes on so at this place, or it ends there too early.
    Bad(usize),
    /// The number at this place does not fit 128 bits.
    WideInt(usize),
    /// What begins at this place is on a level too many.
    TooDeep(usize),
    /// Memory ran out.
    Memory,
}
