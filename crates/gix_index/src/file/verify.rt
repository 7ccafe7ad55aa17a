//! Checks whether a file still has the bytes of which its checksum is the digest.

ghost use Rattle.std.specs.Prelude.{◌≡◌, ◌↔◌, ◌<◌, Err, None, Some, length, IfErr, IsOk, OnOk};
ghost use Rattle.index_parts.specs.Id.{id_kind, id_len};
ghost use Rattle.index_parts.specs.declared.hash.ObjectId.{ObjectId};
ghost use Rattle.gix_index.specs.File.{checksum_of};
ghost use Rattle.gix_index.specs.VerifiedFile.{ChecksumCause, HasDigest, VerifyCause};
ghost use Rattle.gix_index.specs.OnDisk.{FitsAtPath};
ghost use Rattle.gix_index.specs.OnSystem.{FitsOnSystem, SystemVerifyCause};

use super::File;
pub use file_errors::verify::Error;
use file_place::fault::PathError;
use file_place::folder::Folder;
use file_place::system::System;
use file_place::whole::bytes_at;
use index_parts::hash::{ObjectId, digest};
use std::alloc::Global;
use std::rt::Files;

/// Compares `checksum` with the digest of `data` without its last bytes (gitformat-index, "Hash checksum"). The number
/// of last bytes is the length of the checksum. They aren't read. No memory is allocated.
///
/// # Errors
///
/// - [`Error::TooShort`]: there are fewer bytes than the checksum has.
/// - [`Error::Verify`]: the digest differs. The error names it as `actual`.
///
/// No other error occurs.
pub fn bytes(data: &[u8], checksum: ObjectId) -> Result<(), Error>
    ensures too_short { (result ≡ Err Error.TooShort)
        ↔ (length «data».now < id_len (id_kind checksum)) }
    ensures ok { OnOk result (HasDigest «data».now checksum) }
    ensures fault { IfErr result (ChecksumCause «data».now checksum) }
{
    let kind = checksum.kind();
    let len = kind.len_in_bytes();
    if data.len() < len {
        return Err(Error::TooShort);
    }
    digest(kind, &data[..data.len() - len]).verify(&checksum)?;
    Ok(())
}

impl File {
    /// Reads the file at the path again, and compares its bytes with the checksum by [`bytes`]. Without a checksum it
    /// returns `Ok` and reads nothing. The file is the system's. Nothing is changed.
    ///
    /// Memory is allocated for the length that the file's metadata report.
    ///
    /// The errors are those of [`bytes`], and:
    ///
    /// - [`Error::Io`]: the file can't be opened or read. The error names the path.
    /// - [`Error::Memory`]: an allocation failure.
    pub fn verify_integrity<R: Files>(&self, rt: &R, alloc: Global) -> Result<(), Error>
        ensures nothing { checksum_of self.now ≡ None → IsOk result }
        ensures ok { OnOk result (FitsOnSystem self.now) }
        ensures fault { IfErr result (SystemVerifyCause self.now) }
    {
        let folder = System { rt };
        self.verify_integrity_in(&folder, alloc)
    }

    /// Verifies the digest as [`File::verify_integrity`] does, for a file in a [`Folder`].
    pub fn verify_integrity_in<D: Folder>(&self, folder: &D, alloc: Global) -> Result<(), Error>
        ensures nothing { checksum_of self.now ≡ None → IsOk result }
        ensures ok { OnOk result (FitsAtPath D.Folder folder.now self.now) }
        ensures fault { IfErr result
            (VerifyCause self.now (D.works folder.now) (D.known folder.now)) }
    {
        let Some(checksum) = self.checksum else {
            return Ok(());
        };
        match bytes_at(folder, alloc, self.path.as_path()) {
            Ok((data, _)) => bytes(&data, checksum),
            Err(error) => {
                let path = self.path.clone()?;
                match PathError::of(path, error) {
                    Some(fault) => Err(Error::Io(fault)),
                    None => Err(Error::Memory),
                }
            }
        }
    }
}
