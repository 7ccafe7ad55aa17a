//! `examples repair INDEX OUT`: prints the first error in an index, or writes the index again.
//!
//! INDEX is an index of SHA-1. If its bytes can't be decoded, the name and the message of their first error are
//! printed. Otherwise the index is written to the new file OUT, with its cache tree extension (TREE) and with a digest
//! that matches, even if INDEX has none. The number of bytes of both is printed. (OUT has to be new. An existing file
//! may be an index that git uses, which has to be locked before it is read. See `tree-builder`.)

ghost use Rattle.std.specs.Prelude.{◌≡◌, IfOk};
ghost use Rattle.examples.specs.Repaired.{IsRepaired, name_of};

use gix_index::entry::FileTime;
use gix_index::extension::decode::Error as ExtensionError;
use gix_index::extension::end_of_index_entry;
use gix_index::hash::Kind;
use gix_index::hash::io::Plain;
use gix_index::write::{Extensions, Options, VersionChoice};
use gix_index::{File, State, decode, laws, write};
use std::alloc::Global;
use std::fs;
use std::io::Write as _;
use std::path::PathBuf;
use thiserror::Error;

/// The options to write all extensions except the end marker.
const OPTIONS: Options = Options {
    extensions: Extensions::Given {
        tree_cache: true,
        end_of_index_entry: false,
    },
    version: VersionChoice::Smallest,
    skip_hash: false,
};

/// Why an index isn't written again.
#[derive(Debug, Drop, Error)]
enum Fault {
    #[error("{0}")]
    Write(#[from] write::Error),
    #[error("the bytes would end as if they had an end marker")]
    Mistakable,
}

/// What [`repair`] returns for the bytes of an index.
enum Repaired {
    /// The bytes can't be decoded. The values are the name of their first error, and that error.
    Faulty(&'static str, decode::Error),
    /// The bytes of the index that was written again.
    Again(Vec<u8>),
}

/// Returns the name of an error of decoding.
fn name(fault: &decode::Error) -> &'static str
    ensures { result.now ≡ name_of fault.now }
{
    match fault {
        decode::Error::Header(decode::header::Error::Corrupt(_)) => "header",
        decode::Error::Header(decode::header::Error::UnsupportedVersion(_)) => "version",
        decode::Error::Hasher => "hasher",
        decode::Error::OutOfMemory => "limit",
        decode::Error::Entry { .. } => "entry",
        decode::Error::Extension(ExtensionError::MandatoryUnimplemented { .. }) => "extension",
        decode::Error::Extension(ExtensionError::Link(_)) => "link",
        decode::Error::UnexpectedTrailerLength { .. } => "length",
        decode::Error::Verify { .. } => "digest",
        decode::Error::Memory => "memory",
    }
}

/// Returns the first error in the bytes with its name, or the bytes of the index written again. `options` has to ask
/// for no end marker. Reading the new bytes gives exactly what a file stores of the index.
fn repair(alloc: Global, bytes: &[u8], kind: Kind, options: Options) -> Result<Repaired, Fault>
    ensures { IfOk result (IsRepaired kind options bytes.now) }
{
    laws::written_reads_back();
    laws::read_extensions_are_keepable();
    laws::one_answer();
    let reading = decode::Options::default();
    let state = match State::from_bytes(alloc, bytes, FileTime::EPOCH, kind, reading) {
        Ok((state, _)) => state,
        Err(fault) => return Ok(Repaired::Faulty(name(&fault), fault)),
    };
    let own_kind = state.object_hash();
    let mut out = Plain::new(Vec::new(alloc));
    File::from_state(state, PathBuf::new(alloc)).write_to(&mut out, options)?;
    let again = out.inner;
    match end_of_index_entry::decode(&again, own_kind) {
        Some(_) => Err(Fault::Mistakable),
        None => Ok(Repaired::Again(again)),
    }
}

/// Runs the example.
pub fn run(rt: &HostRuntime, words: &[&str]) -> anyhow::Result<()> {
    let &[index, out] = words else {
        return Err(anyhow::Error::msg("usage: examples repair INDEX OUT"));
    };
    let bytes = fs::read(rt, index)?;
    match repair(rt.alloc(), &bytes, Kind::Sha1, OPTIONS)? {
        Repaired::Faulty(name, fault) => println!(rt; "{name}: {fault}")?,
        Repaired::Again(again) => {
            fs::File::create_new(rt, out)?.write_all(&again)?;
            println!(rt; "{} bytes, and again {}", bytes.len(), again.len())?;
        }
    }
    Ok(())
}
