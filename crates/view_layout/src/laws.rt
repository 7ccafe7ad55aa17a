//! Laws of the definitions in the contract of `write_svg`. A law computes nothing.

ghost use Rattle.std.specs.Prelude.{◌≡◌, ℕ, List};
ghost use Rattle.view_layout.specs.Piece.{LieBetween};
ghost use Rattle.view_layout.specs.declared.part.Part.{Part};
ghost use Rattle.view_layout.specs.Cover.{GroupsFillBar, PartsFillBar};
ghost use Rattle.view_layout.specs.Scale.{drawn_len};

/// If parts cover a file that isn't empty, their boxes fill the bar without gap or overlap. So do the boxes of their
/// groups. As many bytes are drawn as the file has.
pub fn bar_is_filled()
    ensures parts { PartsFillBar }
    ensures groups { GroupsFillBar }
    ensures len { (parts : List Part) (len : ℕ) → LieBetween 0 parts len
        → drawn_len parts ≡ len }
{}
