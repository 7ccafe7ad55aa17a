//! The mode that an index stores for the mode of a line.

ghost use Rattle.std.specs.Prelude.{◌≡◌};
ghost use Rattle.entry_info.specs.Mode.{kept_mode};

/// Returns the mode that git stores for the given one. It is a link's for a link, a commit's for a commit or a
/// directory, and else a file's, executable or not. `0o40000` alone is unchanged: it is a complete directory in a
/// sparse index.
pub fn kept_mode(given: u32) -> u32
    ensures { result ≡ kept_mode given }
{
    let file = given & 0o170000;
    if file == 0o120000 {
        return 0o120000;
    }
    if given == 0o40000 {
        return 0o40000;
    }
    if file == 0o40000 || file == 0o160000 {
        return 0o160000;
    }
    if given & 0o100 == 0 {
        return 0o100644;
    }
    0o100755
}
