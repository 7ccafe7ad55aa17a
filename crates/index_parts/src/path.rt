//! Paths, whose names are separated by slashes.

ghost use Rattle.std.specs.Prelude.{◌≡◌, ◌==◌, ◌<◌, All, false, length, IfSome, IsNone};
ghost use Rattle.index_parts.specs.Path.{slash_of};

/// Returns the position of the first slash in a path, or None if it has none. It allocates no memory.
pub fn slash_of(path: &[u8]) -> Option<usize>
    ensures value { result ≡ slash_of path.now }
    ensures inside { IfSome result (λ k. k < length path.now) }
    ensures none { IsNone result → All (λ b. (b == 47) ≡ false) path.now }
{
    path.iter().position(|byte| *byte == b'/')
}
