//! The sizes of the parts of a file, in bytes (gitformat-index, "A 12-byte header", "Index entry").

/// The size of a header.
pub const HEADER_LEN: usize = 12;

/// The size of the numbers before an entry's id: those of its stat, and its mode.
pub const NUMBERS_LEN: usize = 40;

/// The size of a word of flags.
pub const FLAGS_LEN: usize = 2;

/// The number that divides an entry's size in versions 2 and 3. 1 to 8 NULs follow its path.
pub const ENTRY_ALIGN: usize = 8;
