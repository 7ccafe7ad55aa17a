//! The readable remains of an index file that may be damaged: its entries, and the link to a shared index.

ghost use Rattle.std.specs.Prelude.{◌≡◌, ℕ, IfErr, IfOk, IfSome, IsOk, IsSomeAnd, Some, length};
ghost use Rattle.std.specs.Option.{option_map};
ghost use Rattle.gix_index.specs.Header.{header_of};
ghost use Rattle.gix_index.specs.Link.{HasDelete, link_of};
ghost use Rattle.gix_index.specs.State.{contents, records};
ghost use Rattle.view_layout.specs.Piece.{LieBetween};
ghost use Rattle.view_salvage.specs.Remains.{IsLinkAmong, IsPlainIndex, Remain, RemainsCause, has_link, is_link_content, is_link_fault, is_link_head, last_begin, last_link, link_content, wanted_id};
ghost use Rattle.view_salvage.specs.SalvageSteps.{IsIndexOf};
ghost use Rattle.view_salvage.specs.declared.remains.Error.TheVariants.{Memory};

use crate::division::{Division, divide_ending};
use gix_index::decode::header;
use gix_index::entry::FileTime;
use gix_index::extension::decode::Error as ExtensionError;
use gix_index::extension::{Link, link};
use gix_index::hash::{Kind, ObjectId};
use gix_index::init::from_entries;
use gix_index::{State, Version, decode};
use index_model::Parts;
use index_model::extension::Outcome;
use std::alloc::{AllocError, Global};
use thiserror::Error;
use view_layout::part::{Part, What};

/// Why nothing remains of a file.
#[derive(Debug, Drop, Error)]
pub enum Error {
    /// The first twelve bytes can't be read, so no entry can be found.
    #[error("{0}")]
    Header(header::Error),
    /// An allocation failed.
    #[error("out of memory while the entries of an index are saved")]
    Memory,
}

impl From<AllocError> for Error {
    ghost from_gives = { λ _ e. e ≡ Memory };

    fn from(_e: AllocError) -> Error {
        Error::Memory
    }
}

/// The first error of a file by its offset.
#[derive(Debug, Drop)]
pub struct FirstFault {
    /// The offset in bytes from the start of the file.
    pub offset: usize,
    /// The error.
    pub error: decode::Error,
}

/// The readable remains of a file.
#[derive(Drop)]
pub struct Remains {
    /// The readable entries from the first on, in the order of the file. They are an index without extensions, except
    /// that of a sparse index if an entry is a sparse directory.
    pub front: State,
    /// The version of the file.
    pub version: Version,
    /// The number of entries that the file declares.
    pub declared: u32,
    /// The first error, if the file has one.
    pub fault: Option<FirstFault>,
    /// Whether a link to a shared index was found, even an invalid one.
    pub has_link: bool,
    /// The link, if it can be read.
    pub link: Option<Link>,
}

impl Remains {
    /// Returns the id of the shared index with the other entries of the file. Its name is `sharedindex.` and the id in
    /// lower-case base 16, in the directory of the file. Returns `None` if no link can be read, or its id is null.
    pub fn shared_index(&self) -> Option<ObjectId>
        ensures { result ≡ wanted_id (option_map link_of self.now.link) }
    {
        let link = self.link.as_ref()?;
        let id = link.shared_index_checksum;
        if id.is_null() {
            return None;
        }
        Some(id)
    }
}

/// Returns the index marked as sparse if an entry is a sparse directory, and else not marked.
pub(crate) fn with_sparse_mark(state: State) -> State
    ensures records { records result ≡ records state }
    ensures kind { (contents result).kind ≡ (contents state).kind }
    ensures plain { IsIndexOf (contents state).kind (records state) state → IsPlainIndex result }
{
    let mut extensions = Outcome::none();
    extensions.is_sparse = state.entries().iter().any(|entry| entry.mode.is_sparse());
    let object_hash = state.object_hash();
    let timestamp = state.timestamp();
    let (entries, path_backing) = state.into_entries();
    State::from(Parts {
        object_hash,
        timestamp,
        version: Version::V2,
        entries,
        path_backing,
        extensions,
        extensions_fit: true,
    })
}

/// Returns the offset of the last part, or 0 if there is none.
pub fn last_begin(parts: &[Part]) -> usize
    ensures { result ≡ last_begin parts.now }
{
    match parts.last() {
        Some(part) => part.offset,
        None => 0,
    }
}

/// Returns the first error, with the offset of the last part, which begins there.
fn first_fault(parts: &[Part], error: Option<decode::Error>) -> Option<FirstFault>
    ensures error { option_map (λ f. f.error) result ≡ error }
    ensures offset { IfSome result (λ f. f.offset ≡ last_begin parts.now) }
{
    let error = error?;
    let offset = last_begin(parts);
    Some(FirstFault { offset, error })
}

/// Returns whether a part is the head of a link.
fn is_link_head(part: &Part) -> bool
    ensures { result ≡ is_link_head part.now.what }
{
    match part.what {
        What::ExtensionHead { signature } => signature == link::SIGNATURE,
        _ => false,
    }
}

/// Returns whether the error is that of a link.
fn is_link_fault(error: &Option<decode::Error>) -> bool
    ensures { result ≡ is_link_fault error.now }
{
    matches!(
        error,
        Some(decode::Error::Extension(ExtensionError::Link(_)))
    )
}

/// Returns whether a link is among the parts, or has the first error.
fn has_link(parts: &[Part], error: &Option<decode::Error>) -> bool
    ensures { result ≡ has_link parts.now error.now }
{
    parts.iter().any(|part| is_link_head(part)) || is_link_fault(error)
}

/// Returns whether a part is the content of a link.
fn is_link_content(part: &Part) -> bool
    ensures { result ≡ is_link_content part.now.what }
{
    match part.what {
        What::ExtensionContent { signature } => signature == link::SIGNATURE,
        _ => false,
    }
}

/// Returns the last part that is the content of a link, if there is one.
fn last_link(parts: &[Part]) -> Option<Part>
    ensures { result ≡ last_link parts.now }
{
    let mut found = None;
    for part in parts {
        if is_link_content(part) {
            found = Some(*part);
        }
    }
    found
}

/// Returns the link that is complete among the parts of these bytes, if there is one.
fn link_in(
    alloc: Global,
    kind: Kind,
    bytes: &[u8],
    parts: &[Part],
) -> Result<Option<Link>, AllocError>
    requires { (place : ℕ) × LieBetween place parts.now (length bytes.now) }
    ensures link { IfOk result
        (λ link. IsLinkAmong kind bytes.now parts.now (option_map link_of link)) }
    ensures memory { IfErr result
        (λ _. IsSomeAnd (link_content bytes.now parts.now) (HasDelete kind)) }
{
    let Some(part) = last_link(parts) else {
        return Ok(None);
    };
    let (_, behind) = bytes.split_at(part.offset);
    let (content, _) = behind.split_at(part.len);
    match link::decode::decode(alloc, content, kind) {
        Ok(link) => Ok(Some(link)),
        Err(link::decode::Error::Corrupt(_)) => Ok(None),
        Err(link::decode::Error::BitmapDecode { .. }) => Ok(None),
        Err(link::decode::Error::Memory) => Err(AllocError),
    }
}

/// Returns what can be read of a file with this hash algorithm:
///
/// - the entries from the first on, up to the first that can't be read, and at most as many as the header declares;
/// - the link to a shared index, if it is complete and before the first error (gitformat-index, "Split index"). Then
///   all entries of the file were read.
///
/// Git writes the link before all other extensions except an offset table. So the link can be read in these cases: the
/// trailer or a later extension is damaged; the file is cut there; or bytes of entries are changed that don't move what
/// follows them. Time and memory are proportional to the number of bytes.
///
/// # Errors
///
/// - [`Error::Header`]: the header can't be read, and nothing remains.
/// - [`Error::Memory`]: an allocation failed, and the header can be read.
pub fn remains_of(alloc: Global, kind: Kind, bytes: &[u8]) -> Result<Remains, Error>
    ensures remains { IfOk result (Remain kind bytes.now) }
    ensures kind { IfOk result (λ r. (contents r.front).kind ≡ kind) }
    ensures plain { IfOk result (λ r. IsPlainIndex r.front) }
    ensures lost { IfErr result (RemainsCause kind bytes.now) }
    ensures memory { IfErr result (λ e. e ≡ Memory → IsOk (header_of kind bytes.now)) }
{
    let (version, declared) = match header::decode(bytes, kind) {
        Ok((version, declared, _)) => (version, declared),
        Err(e) => return Err(Error::Header(e)),
    };
    let Division {
        parts,
        entries,
        fault,
    } = divide_ending(alloc, kind, version, declared, bytes)?;
    let front = with_sparse_mark(from_entries(entries, kind, FileTime::EPOCH));
    let link = link_in(alloc, kind, bytes, &parts)?;
    let has_link = has_link(&parts, &fault);
    let fault = first_fault(&parts, fault);
    Ok(Remains {
        front,
        version,
        declared,
        fault,
        has_link,
        link,
    })
}
