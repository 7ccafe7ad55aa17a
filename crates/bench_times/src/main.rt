//! `index-times`: measures the library's calls on an index, and prints what they find and write.
//!
//! `check INDEX NAMES` makes each call for all names. It measures no time. For each call it prints a line:
//!
//! - the call's name and the number of names that it finds;
//! - for a call that builds a table, the number of its directories instead, case-sensitive and, if the table has them,
//!   case-insensitive.
//!
//! Then it writes the index, with its digest and with a null digest. Two lines have the number of bytes, and how many
//! of them equal those that were read, counted from the first.
//!
//! `lookup CALL INDEX NAMES` makes one call, or none for `load`. It prints the nanoseconds of processor time for all
//! names together, and then the numbers that `check` prints.
//!
//! `write INDEX` prints the nanoseconds of processor time of three calls, and then the number of bytes of the index:
//!
//! - reading the index without a check of its digest,
//! - writing it with a null digest,
//! - writing it with its digest.
//!
//! `whole CALL INDEX` prints the nanoseconds of processor time of a call on the complete index, and the number of
//! entries after it. `open` reads the file and checks its digest, `open-bare` doesn't check it. Both read the shared
//! index of a split index. `sort`, `remove` (every second entry), `verify` and `copy` work on an index that was read
//! before.
//!
//! `edit CALL INDEX NAMES` adds an entry for each name to the index. It prints the nanoseconds of processor time and
//! the number of entries afterwards. `apply` stages them, `sort` pushes them and sorts.
//!
//! `list-tree ROOT FILE` makes an index of a tree, and measures no time. FILE has trees as `git cat-file --batch`
//! prints them: the tree with the id ROOT and all trees below it. For each entry it prints the mode (six octal digits),
//! the id and the path. A space follows the mode, a tab the id and a NUL the path. The last line states whether the
//! entries are in order.
//!
//! INDEX is an index of SHA-1. NAMES has one name in each line. All work is done in memory.
#![tactic(auto)]

mod clock;
mod edits;
mod lookups;
mod tree;
mod whole;
mod writing;

use clock::Clock;
use gix_index::entry::FileTime;
use gix_index::hash::Kind;
use gix_index::{File, decode};
use lookups::{CALLS, Found};
use std::alloc::Global;
use std::path::PathBuf;
use std::{env, fs, io};

/// Decodes the index without a check of its digest. If the bytes are no index, the error is
/// [`InvalidData`](io::ErrorKind::InvalidData).
fn index_of(alloc: Global, bytes: &[u8]) -> io::Result<File> {
    let path = PathBuf::from_str(alloc, "index")?;
    let options = decode::Options::default();
    match File::decode(
        alloc,
        bytes,
        path,
        Kind::Sha1,
        true,
        FileTime::EPOCH,
        options,
    ) {
        Ok(file) => Ok(file),
        Err(_) => Err(io::Error::from(io::ErrorKind::InvalidData)),
    }
}

/// Returns the lines of the text.
fn names_of(alloc: Global, text: &str) -> io::Result<Vec<&[u8]>> {
    let mut names = Vec::new(alloc);
    for line in text.lines() {
        names.push(line.as_bytes())?;
    }
    Ok(names)
}

/// Returns the length of the longest common prefix.
fn common_len(one: &[u8], other: &[u8]) -> usize {
    one.iter()
        .zip(other.iter())
        .take_while(|(a, b)| a == b)
        .count()
}

/// Prints the result of a call.
fn put_found(rt: &HostRuntime, found: Found) -> io::Result<()> {
    match found.folded {
        Some(folded) => println!(rt; "{} {folded}", found.count),
        None => println!(rt; "{}", found.count),
    }
}

/// Makes each call and writes the index.
fn check(rt: &HostRuntime, alloc: Global, index: &str, names: &str) -> io::Result<()> {
    let (bytes, text) = (fs::read(rt, index)?, fs::read_to_string(rt, names)?);
    let (file, names) = (index_of(alloc, &bytes)?, names_of(alloc, &text)?);
    for call in CALLS {
        let found = lookups::run(None, alloc, &file, call, &names)?;
        print!(rt; "{call} ")?;
        put_found(rt, found)?;
    }
    let hashed = writing::written(None, alloc, &file, bytes.len(), false)?.1;
    let bare = writing::written(None, alloc, &file, bytes.len(), true)?.1;
    println!(rt; "write {} {}", hashed.len(), common_len(&hashed, &bytes))?;
    println!(rt; "write-bare {} {}", bare.len(), common_len(&bare, &bytes))
}

/// Measures one call.
fn lookup(rt: &HostRuntime, alloc: Global, call: &str, index: &str, names: &str) -> io::Result<()> {
    let (bytes, text) = (fs::read(rt, index)?, fs::read_to_string(rt, names)?);
    let (file, names) = (index_of(alloc, &bytes)?, names_of(alloc, &text)?);
    let found = lookups::run(Some(rt), alloc, &file, call, &names)?;
    print!(rt; "{} ", found.nanoseconds)?;
    put_found(rt, found)
}

/// Measures an edit.
fn edit(rt: &HostRuntime, alloc: Global, call: &str, index: &str, names: &str) -> io::Result<()> {
    let (bytes, text) = (fs::read(rt, index)?, fs::read_to_string(rt, names)?);
    let (mut file, names) = (index_of(alloc, &bytes)?, names_of(alloc, &text)?);
    let (nanoseconds, count) = edits::run(Some(rt), alloc, call, &mut file, &names)?;
    println!(rt; "{nanoseconds} {count}")
}

/// Measures reading and writing.
fn write(rt: &HostRuntime, alloc: Global, index: &str) -> io::Result<()> {
    let clock: Clock<'_> = Some(rt);
    let bytes = fs::read(rt, index)?;
    let begin = clock::now(clock)?;
    let file = index_of(alloc, &bytes)?;
    let reading = clock::since(clock, begin)?;
    let bare = writing::written(clock, alloc, &file, bytes.len(), true)?.0;
    let hashed = writing::written(clock, alloc, &file, bytes.len(), false)?.0;
    println!(rt; "{reading} {bare} {hashed} {}", bytes.len())
}

/// Measures one call on the complete index.
fn on_whole(rt: &HostRuntime, alloc: Global, call: &str, index: &str) -> io::Result<()> {
    let (nanoseconds, count) = match call {
        "open" => whole::open(rt, alloc, index, false)?,
        "open-bare" => whole::open(rt, alloc, index, true)?,
        _ => {
            let mut file = index_of(alloc, &fs::read(rt, index)?)?;
            whole::run(Some(rt), call, &mut file)?
        }
    };
    println!(rt; "{nanoseconds} {count}")
}

fn main(rt: HostRuntime) -> anyhow::Result<()> {
    let alloc = rt.alloc();
    let args: Vec<String> = env::args(&rt)?.skip(1).collect(alloc)?;
    let words: Vec<&str> = args.iter().map(|word| word.as_str()).collect(alloc)?;
    match words.as_slice() {
        ["check", index, names] => check(&rt, alloc, index, names)?,
        ["edit", call, index, names] => edit(&rt, alloc, call, index, names)?,
        ["list-tree", root, file] => tree::list(&rt, alloc, root, file)?,
        ["lookup", call, index, names] => lookup(&rt, alloc, call, index, names)?,
        ["whole", call, index] => on_whole(&rt, alloc, call, index)?,
        ["write", index] => write(&rt, alloc, index)?,
        _ => return Err(anyhow::Error::from(io::Error::from(io::ErrorKind::InvalidInput))),
    }
    Ok(())
}
