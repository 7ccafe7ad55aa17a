//! The statuses that calls return.

/// The call succeeded.
pub const DONE: u32 = 0;
/// The bytes are no index, or are damaged. The summary has the error's number and `fault_place`, and the text describes
/// it.
pub const REFUSED: u32 = 1;
/// An allocation failed.
pub const MEMORY: u32 = 2;
/// The room for rows or for the bytes of paths is too small. The summary has how much is needed.
pub const NO_ROOM: u32 = 3;
/// The call doesn't accept a number that the caller passed.
pub const WRONG_NUMBER: u32 = 4;
/// Nothing in the table matches the request.
pub const NONE: u32 = 5;
