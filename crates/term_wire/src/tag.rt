//! The bytes that a text and its terms begin with.

/// The first byte of a text.
pub const VERSION: u8 = 131;

/// A number in one byte.
pub const SMALL_INTEGER: u8 = 97;

/// A number in four bytes.
pub const INTEGER: u8 = 98;

/// A number in as many bytes as one byte counts.
pub const SMALL_BIG: u8 = 110;

/// A number in as many bytes as four bytes count.
pub const LARGE_BIG: u8 = 111;

/// An atom in UTF-8, with its length in one byte.
pub const SMALL_ATOM_UTF8: u8 = 119;

/// An atom in UTF-8, with its length in two bytes.
pub const ATOM_UTF8: u8 = 118;

/// An atom in Latin-1, with its length in one byte.
pub const SMALL_ATOM: u8 = 115;

/// An atom in Latin-1, with its length in two bytes.
pub const ATOM: u8 = 100;

/// A tuple, with its size in one byte.
pub const SMALL_TUPLE: u8 = 104;

/// A tuple, with its size in four bytes.
pub const LARGE_TUPLE: u8 = 105;

/// The empty list, and the end of any list behind tag 108.
pub const NIL: u8 = 106;

/// A list of numbers of one byte each, with its size in two bytes.
pub const STRING: u8 = 107;

/// A list, with its size in four bytes.
pub const LIST: u8 = 108;

/// A binary, with its length in four bytes.
pub const BINARY: u8 = 109;

/// The tags of what is no term here: floats, bit strings, references, ports, functions, maps and the like.
pub const OUTSIDE: [u8; 18] = [
    70, 77, 80, 82, 88, 89, 90, 99, 101, 102, 103, 112, 113, 114, 116, 117, 120, 121,
];
