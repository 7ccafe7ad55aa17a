//! Object ids of two hash algorithms, and their digests.

ghost use Rattle.std.specs.Prelude.{◌≡◌, ◌≤◌, ◌↔◌, ◌++◌, ℕ, List, [], length, IsTrue, Some};
ghost use Rattle.std.specs.Fmt.{WritesOnOk};
ghost use Rattle.hex.specs.Hex.{encode_lower};
ghost use Rattle.index_parts.specs.Digest.{digest, hasher_kind, Holds};
ghost use Rattle.index_parts.specs.Id.{make_id};

use crate::bytes;
use base_sha::{Sha1, Sha256};
use std::fmt;

pub mod io;
pub mod verify;

/// The hash algorithm by which a repository names its objects (gitformat-index: 160 or 256 bits).
#[derive(Clone, Copy, Debug, PartialEq, Eq, PartialOrd, Ord, Hash)]
pub enum Kind {
    /// SHA-1, with ids of 20 bytes.
    Sha1,
    /// SHA-256, with ids of 32 bytes.
    Sha256,
}

/// The id of an object: a hash algorithm, and as many bytes as its digests have. Ordered by algorithm, then by bytes.
#[derive(Clone, Copy, Debug, PartialEq, Eq, PartialOrd, Ord, Hash)]
pub enum ObjectId {
    /// An id of 20 bytes.
    Sha1([u8; 20]),
    /// An id of 32 bytes.
    Sha256([u8; 32]),
}

impl Kind {
    ghost use Rattle.index_parts.specs.Id.{id_len, null_id};

    /// Returns the length of an id in bytes: 20 or 32.
    pub fn len_in_bytes(&self) -> usize
        ensures { result ≡ id_len self.now }
    {
        match self {
            Kind::Sha1 => 20,
            Kind::Sha256 => 32,
        }
    }

    /// Returns the id whose bytes are all zero.
    pub fn null(&self) -> ObjectId
        ensures { result ≡ null_id self.now }
    {
        match self {
            Kind::Sha1 => ObjectId::Sha1([0; 20]),
            Kind::Sha256 => ObjectId::Sha256([0; 32]),
        }
    }
}

impl ObjectId {
    ghost use Rattle.index_parts.specs.Id.{id_bytes, id_kind, id_of, id_len, is_null};

    /// Returns the id with these bytes, or None if their number is neither 20 nor 32.
    pub fn from_bytes(bytes: &[u8]) -> Option<ObjectId>
        ensures { result ≡ id_of bytes.now }
    {
        match bytes.len() {
            20 => Some(ObjectId::of_kind(Kind::Sha1, bytes)),
            32 => Some(ObjectId::of_kind(Kind::Sha256, bytes)),
            _ => None,
        }
    }

    /// Returns the id of this hash algorithm with these bytes. Their number must be that of the algorithm.
    pub fn of_kind(kind: Kind, bytes: &[u8]) -> ObjectId
        requires { length bytes.now ≡ id_len kind }
        ensures { result ≡ make_id kind bytes.now }
    {
        match kind {
            Kind::Sha1 => {
                let mut id = [0; 20];
                id.copy_from_slice(bytes);
                ObjectId::Sha1(id)
            }
            Kind::Sha256 => {
                let mut id = [0; 32];
                id.copy_from_slice(bytes);
                ObjectId::Sha256(id)
            }
        }
    }

    /// Returns the id's bytes, 20 or 32.
    pub fn as_bytes(&self) -> &[u8]
        ensures bytes { result.now ≡ id_bytes self.now }
        ensures len { length result.now ≡ id_len (id_kind self.now) }
    {
        match self {
            ObjectId::Sha1(bytes) => bytes,
            ObjectId::Sha256(bytes) => bytes,
        }
    }

    /// Returns the id's hash algorithm.
    pub fn kind(&self) -> Kind
        ensures { result ≡ id_kind self.now }
    {
        match self {
            ObjectId::Sha1(_) => Kind::Sha1,
            ObjectId::Sha256(_) => Kind::Sha256,
        }
    }

    /// Returns whether the id is of this hash algorithm. An id has as many bytes as its algorithm's digests.
    pub fn is_of_kind(&self, kind: Kind) -> bool
        ensures same { IsTrue result ↔ id_kind self.now ≡ kind }
        ensures len { length (id_bytes self.now) ≡ id_len (id_kind self.now) }
    {
        self.as_bytes().len() == kind.len_in_bytes()
    }

    /// Returns whether all bytes are zero.
    pub fn is_null(&self) -> bool
        ensures { result ≡ is_null (id_bytes self.now) }
    {
        bytes::is_null(self.as_bytes())
    }
}

/// A hasher: it takes bytes in pieces, and returns the digest of the pieces joined (FIPS 180-4).
#[derive(Drop)]
pub enum Hasher {
    /// The hasher of SHA-1.
    Sha1(Sha1),
    /// The hasher of SHA-256.
    Sha256(Sha256),
}

impl Hasher {
    /// Returns a hasher of this algorithm that has taken in no byte.
    pub fn new(kind: Kind) -> Hasher
        ensures kind { hasher_kind result ≡ kind }
        ensures empty { Holds result [] }
    {
        match kind {
            Kind::Sha1 => Hasher::Sha1(Sha1::new()),
            Kind::Sha256 => Hasher::Sha256(Sha256::new()),
        }
    }

    /// Takes in the bytes of `piece`, after those before.
    pub fn update(&mut self, piece: &[u8])
        ensures kind { hasher_kind self.new ≡ hasher_kind self.old }
        ensures more { (m : List ℕ) → Holds self.old m → Holds self.new (m ++ piece.now) }
    {
        match self {
            Hasher::Sha1(hasher) => hasher.update(piece),
            Hasher::Sha256(hasher) => hasher.update(piece),
        }
    }

    /// Returns the digest of all bytes that were taken in.
    pub fn finalize(self) -> ObjectId
        ensures { (m : List ℕ) → Holds self m
            → result ≡ make_id (hasher_kind self) (digest (hasher_kind self) m) }
    {
        match self {
            Hasher::Sha1(hasher) => ObjectId::Sha1(hasher.finalize()),
            Hasher::Sha256(hasher) => ObjectId::Sha256(hasher.finalize()),
        }
    }
}

/// Returns the digest of these bytes (FIPS 180-4).
pub fn digest(kind: Kind, bytes: &[u8]) -> ObjectId
    ensures { result ≡ make_id kind (digest kind bytes.now) }
{
    match kind {
        Kind::Sha1 => ObjectId::Sha1(Sha1::digest(bytes)),
        Kind::Sha256 => ObjectId::Sha256(Sha256::digest(bytes)),
    }
}

/// Writes two digits of base 16 for each of at most 32 bytes.
fn write_hex<W: fmt::Write>(bytes: &[u8], f: &mut fmt::Formatter<W>) -> fmt::Result
    requires { length bytes.now ≤ 32 }
    ensures { WritesOnOk W.write_str_gives f.old result (encode_lower bytes.now) f.new }
{
    let mut room = [0; 64];
    let digits = &mut room[..2 * bytes.len()];
    hex::encode_to_slice(bytes, digits).map_err(|_| fmt::Error)?;
    let text = str::from_utf8(digits).map_err(|_| fmt::Error)?;
    f.write_str(text)
}

/// Writes the id in base 16: 40 or 64 digits in lower case.
impl fmt::Display for ObjectId {
    ghost use Rattle.index_parts.specs.Id.{id_bytes};

    ghost output = { λ id. Some (encode_lower (id_bytes id)) };

    fn fmt<W: fmt::Write>(&self, f: &mut fmt::Formatter<W>) -> fmt::Result {
        write_hex(self.as_bytes(), f)
    }
}
