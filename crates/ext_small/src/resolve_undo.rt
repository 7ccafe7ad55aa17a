//! Decodes the conflicts as they were before they were resolved (gitformat-index, "Resolve undo").

ghost use Rattle.std.specs.Prelude.{◌≡◌, ◌<◌, ◌∷◌, [], map, None, IfOk, IfErr, slice_set};
ghost use Rattle.std.specs.Option.{option_map};
ghost use Rattle.index_extensions.specs.ExtensionValue.{IsRead};
ghost use Rattle.ext_small.specs.ResolveUndo.{HasResolvePath, path_stages, IsResolveUndo, side_of};

use bstr::BString;
use index_extensions::Signature;
use index_parts::hash::{Kind, ObjectId};
use std::alloc::{AllocError, Global};

mod octal;
mod path;

/// The signature of the extension.
pub const SIGNATURE: Signature = *b"REUC";

/// The paths in the order of the file.
pub type Paths = Vec<ResolvePath>;

/// One side of a conflict.
#[derive(Clone, Copy, Debug, PartialEq, Eq)]
pub struct Stage {
    mode: u32,
    id: ObjectId,
}

impl Stage {
    /// Returns the side with a mode and an id, or `None` if the mode is 0. In a file, a mode of 0 means that there is
    /// no such side.
    pub fn new(mode: u32, id: ObjectId) -> Option<Stage>
        ensures { result ≡ side_of mode id }
    {
        if mode == 0 {
            return None;
        }
        Some(Stage { mode, id })
    }

    /// Returns the mode of the file, which isn't 0. It is the number in the index file, which may be any other number.
    pub fn mode(&self) -> u32
        ensures { result ≡ self.now.mode }
    {
        self.mode
    }

    /// Returns the id of the object with the contents.
    pub fn id(&self) -> ObjectId
        ensures { result ≡ self.now.id }
    {
        self.id
    }
}

/// A path that was in conflict, and the sides that the conflict had.
#[derive(Debug, Drop, PartialEq, Eq)]
pub struct ResolvePath {
    name: BString,
    stages: [Option<Stage>; 3],
}

/// Returns a path with the same name and the same sides. An error means that memory for the name couldn't be allocated.
impl Clone for ResolvePath {
    ghost is_clone = { λ a b. path_stages b ≡ path_stages a };

    fn clone(&self) -> Result<ResolvePath, AllocError> {
        Ok(ResolvePath {
            name: self.name.clone()?,
            stages: self.stages,
        })
    }
}

impl ResolvePath {
    /// Returns a path without sides. `name` has slashes between directories. An error means that memory for it couldn't
    /// be allocated.
    pub fn new(alloc: Global, name: &[u8]) -> Result<ResolvePath, AllocError>
        ensures { IfOk result
            (λ path. path_stages path ≡ record { name = name.now; stages = None ∷ None ∷ None ∷ [] }) }
    {
        Ok(ResolvePath {
            name: BString::from_slice(alloc, name)?,
            stages: [None, None, None],
        })
    }

    /// Replaces one of the three sides by another side or by `None`. The path and the other sides are unchanged.
    ///
    /// `place` is 0 for the common ancestor's side, 1 for ours, and 2 for theirs.
    pub fn set_side(&mut self, place: usize, side: Option<Stage>)
        requires { place < 3 }
        ensures { path_stages self.new ≡ record {
          name = (path_stages self.old).name;
          stages = slice_set (path_stages self.old).stages place side;
        } }
    {
        self.stages[place] = side;
    }

    /// Returns the path, with slashes between directories.
    pub fn name(&self) -> &[u8]
        ensures { result.now ≡ (path_stages self.now).name }
    {
        self.name.as_bytes()
    }

    /// Returns the common ancestor's side, ours and theirs, in this order. A side is `None` if the path had no such
    /// side.
    pub fn stages(&self) -> &[Option<Stage>; 3]
        ensures { result.now ≡ (path_stages self.now).stages }
    {
        &self.stages
    }
}

/// Decodes the paths in the content of the extension. Empty content has no paths.
///
/// It returns `None` if the bytes end within a path, or if a mode isn't an octal number of at most 32 bits. Memory is
/// allocated path by path, after all bytes of the path were read. An error means that it couldn't be allocated.
pub fn decode(alloc: Global, data: &[u8], object_hash: Kind) -> Result<Option<Paths>, AllocError>
    ensures read { IfOk result
        (λ found. IsRead (IsResolveUndo object_hash) «data».now
        (option_map (λ paths. map path_stages paths.items) found)) }
    ensures memory { IfErr result (λ _. HasResolvePath object_hash «data».now) }
{
    let mut paths = Vec::new(alloc);
    let mut rest = data;
    while !rest.is_empty() {
        let Some((path, after)) = path::path_of(object_hash, rest) else {
            return Ok(None);
        };
        paths.push(ResolvePath {
            name: BString::from_slice(alloc, path.name)?,
            stages: path.stages,
        })?;
        rest = after;
    }
    Ok(Some(paths))
}
