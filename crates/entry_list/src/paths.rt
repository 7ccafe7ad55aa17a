//! Common prefixes of paths, and checks that paths have no NUL, as the encoding of version 4 requires
//! (gitformat-index).

ghost use Rattle.std.specs.Prelude.{◌≡◌, ◌≢◌, ◌≤◌, ◌↔◌, All, IsTrue, length, take};
ghost use Rattle.entry_list.specs.EntryImage.{LackNul};
ghost use Rattle.entry_list.specs.Record.{records_in};
ghost use Rattle.entry_list.specs.Shared.{shared_len};

use crate::Entry;
use index_parts::read::{WORD_LEN, word_at};

/// Returns the length in bytes of the words that both begin with. A word has [`WORD_LEN`] bytes.
fn shared_words(a: &[u8], b: &[u8]) -> usize
    ensures first { result ≤ length a.now }
    ensures second { result ≤ length b.now }
    ensures same { take result a.now ≡ take result b.now }
{
    let end = a.len().min(b.len());
    let mut len = 0;
    while end - len >= WORD_LEN && word_at(a, len) == word_at(b, len) {
        len += WORD_LEN;
    }
    len
}

/// Returns the length in bytes of the longest common prefix.
pub fn shared_len(a: &[u8], b: &[u8]) -> usize
    ensures value { result ≡ shared_len a.now b.now }
    ensures first { result ≤ length a.now }
    ensures second { result ≤ length b.now }
{
    let mut len = shared_words(a, b);
    while len < a.len() && len < b.len() {
        if a[len] != b[len] {
            return len;
        }
        len += 1;
    }
    len
}

/// Returns whether no byte of the path is a NUL.
pub fn lacks_nul(path: &[u8]) -> bool
    ensures { IsTrue result ↔ All (λ b. b ≢ 0) path.now }
{
    path.iter().all(|byte| *byte != 0)
}

/// Returns whether no path has a NUL, of the entries that aren't marked `REMOVE`. A file leaves out the others.
pub fn paths_without_nul(entries: &[Entry], storage: &[u8]) -> bool
    ensures { IsTrue result ↔ LackNul (records_in storage.now entries.now) }
{
    for entry in entries {
        if entry.is_removed() {
            continue;
        }
        if !lacks_nul(entry.path_in(storage)) {
            return false;
        }
    }
    true
}
