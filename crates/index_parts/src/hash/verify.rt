//! Comparison of a digest with the expected one.

ghost use Rattle.std.specs.Prelude.{◌≡◌, ◌↔◌, IsOk, IfErr};

use super::ObjectId;
use thiserror::Error;

/// The error if a digest is not the expected one.
#[derive(Clone, Copy, Debug, PartialEq, Eq, Error)]
#[error("the digest is {actual}, but {expected} was expected: the data may be damaged")]
pub struct Error {
    /// The digest of the data.
    pub actual: ObjectId,
    /// The expected digest.
    pub expected: ObjectId,
}

impl ObjectId {
    /// Compares this digest with the expected one. If they differ, the error has both.
    pub fn verify(&self, expected: &ObjectId) -> Result<(), Error>
        ensures ok { IsOk result ↔ (self.now ≡ expected.now) }
        ensures actual { IfErr result (λ error. error.actual ≡ self.now) }
        ensures expected { IfErr result (λ error. error.expected ≡ expected.now) }
    {
        if self != expected {
            return Err(Error {
                actual: *self,
                expected: *expected,
            });
        }
        Ok(())
    }
}
