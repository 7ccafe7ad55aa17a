//! Decodes single entries from the start of bytes, and the list that collects them.

pub use entry_decode::entry::{Lent, entry_of};
pub use entry_decode::reader::EntryReader;
pub use entry_list::Pathless;
pub use entry_list::list::EntryList;
pub use entry_list::slice::EntrySlice;
