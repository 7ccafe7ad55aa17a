//! The destination of tree objects.

ghost use Rattle.std.specs.Prelude.{◌≡◌, ℕ, Option, [], ◌∷◌, None, Some, OnOk, OnErr, IfErr};
ghost use Rattle.tree_encode.specs.Objects.{Taken, with_objects};

use index_parts::hash::ObjectId;

/// The destination of tree objects, such as an object store or a list.
pub trait Sink {
    // The trees that the sink took, each by its id and its bytes, in order. None for a sink of which no clause can
    // state them, such as one on a disk, or one that stores nothing.
    ghost stored: { Self → Taken };

    // The number of the error, after the sink has rejected a tree.
    ghost fault: { Self → Option ℕ };

    /// Takes the tree object with this id and these bytes. An error is the sink's own number of what is wrong. After an
    /// error the sink has taken nothing of that tree.
    fn put(&mut self, id: &ObjectId, bytes: &[u8]) -> Result<(), u32>
        ensures stored { OnOk result
            (stored self.new ≡ with_objects (stored self.old) ((id.now, bytes.now) ∷ [])) }
        ensures refused { OnErr result (stored self.new ≡ stored self.old) }
        ensures fault { IfErr result (λ number. fault self.new ≡ Some number) };
}

/// The sink that stores no tree, for a caller who needs only the cached tree.
#[derive(Clone, Copy)]
pub struct Discard;

impl Sink for Discard {
    ghost stored = { λ _. None };

    ghost fault = { λ _. None };

    fn put(&mut self, _id: &ObjectId, _bytes: &[u8]) -> Result<(), u32> {
        Ok(())
    }
}
