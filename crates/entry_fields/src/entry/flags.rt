//! The flags of an entry in memory, including the stage.

ghost use Rattle.std.specs.Prelude.{◌≡◌, ◌*◌, ⊤, [], ◌∷◌, codes};

use bitflags::{Flag, Flags as _, bitflag_items};

/// The flags of an entry in memory, in 32 bits.
///
/// A file stores the bits 12 to 15 in the first word of flags. For an entry with `EXTENDED` it stores `INTENT_TO_ADD`
/// and `SKIP_WORKTREE` in a second word (gitformat-index, "Index entry"). The other bits exist only in memory.
///
/// Every bit has a name, so each number is a value. The operations of sets, such as `contains` and `insert`, are those
/// of the trait `bitflags::Flags`.
#[derive(Clone, Copy, Debug, PartialEq, Eq, PartialOrd, Ord, Hash)]
pub struct Flags(u32);

bitflag_items! {
    impl Flags: u32 {
        const PATH_LEN = 0x0fff;
        const STAGE_MASK = 0x3000;
        const EXTENDED = 0x4000;
        const ASSUME_VALID = 0x8000;
        const UPDATE = 0x1_0000;
        const REMOVE = 0x2_0000;
        const UPTODATE = 0x4_0000;
        const ADDED = 0x8_0000;
        const HASHED = 0x10_0000;
        const FSMONITOR_VALID = 0x20_0000;
        const WORKTREE_REMOVE = 0x40_0000;
        const CONFLICTED = 0x80_0000;
        const UNPACKED = 0x100_0000;
        const NEW_SKIP_WORKTREE = 0x200_0000;
        const PATHSPEC_MATCHED = 0x400_0000;
        const UPDATE_IN_BASE = 0x800_0000;
        const STRIP_NAME = 0x1000_0000;
        const INTENT_TO_ADD = 0x2000_0000;
        const SKIP_WORKTREE = 0x4000_0000;
        const EXTENDED_2 = 0x8000_0000;
    }
}

impl bitflags::Flags for Flags {
    type Bits = u32;

    ghost exact = { ⊤ };

    ghost table = { (codes "PATH_LEN", 0x0fff) ∷ (codes "STAGE_MASK", 0x3000)
        ∷ (codes "EXTENDED", 0x4000) ∷ (codes "ASSUME_VALID", 0x8000)
        ∷ (codes "UPDATE", 0x10000) ∷ (codes "REMOVE", 0x20000) ∷ (codes "UPTODATE", 0x40000)
        ∷ (codes "ADDED", 0x80000) ∷ (codes "HASHED", 0x100000)
        ∷ (codes "FSMONITOR_VALID", 0x200000) ∷ (codes "WORKTREE_REMOVE", 0x400000)
        ∷ (codes "CONFLICTED", 0x800000)
        ∷ (codes "UNPACKED", 0x1000000) ∷ (codes "NEW_SKIP_WORKTREE", 0x2000000)
        ∷ (codes "PATHSPEC_MATCHED", 0x4000000) ∷ (codes "UPDATE_IN_BASE", 0x8000000)
        ∷ (codes "STRIP_NAME", 0x10000000) ∷ (codes "INTENT_TO_ADD", 0x20000000)
        ∷ (codes "SKIP_WORKTREE", 0x40000000) ∷ (codes "EXTENDED_2", 0x80000000) ∷ [] };

    ghost set_of = { λ f. f.0 };

    fn flags<'a>() -> &'a [Flag<Flags>] {
        Flags::FLAGS
    }

    fn bits(&self) -> u32 {
        self.0
    }

    fn from_bits_retain(bits: u32) -> Flags {
        Flags(bits)
    }
}

/// A stage as a number: 0 to 3, in the order of [`Stage`].
pub type StageRaw = u32;

/// The side of a merge that an entry is from. Ordered by its number.
#[derive(Clone, Copy, Debug, Default, PartialEq, Eq, PartialOrd, Ord, Hash)]
pub enum Stage {
    /// No conflict: the only entry of its path.
    #[default]
    Unconflicted = 0,
    /// The common ancestor's entry.
    Base = 1,
    /// Our side's entry.
    Ours = 2,
    /// Their side's entry.
    Theirs = 3,
}

impl Flags {
    ghost use Rattle.entry_fields.specs.Flags.{stage_number, stage_of, stage_code, stored_flags};

    /// Returns flags with this stage and no other flag.
    pub fn from_stage(stage: Stage) -> Flags
        ensures bits { result.0 ≡ stage_code stage * 4096 }
        ensures stage { stage_of result.0 ≡ stage }
    {
        Flags((stage as u32) << 12)
    }

    /// Returns the stage as a number, 0 to 3: bits 12 and 13.
    pub fn stage_raw(&self) -> StageRaw
        ensures { result ≡ stage_number self.now.0 }
    {
        (self.0 & 0x3000) >> 12
    }

    /// Returns the stage.
    pub fn stage(&self) -> Stage
        ensures { result ≡ stage_of self.now.0 }
    {
        match self.stage_raw() {
            0 => Stage::Unconflicted,
            1 => Stage::Base,
            2 => Stage::Ours,
            _ => Stage::Theirs,
        }
    }

    /// Returns the flags that a file stores: bits 12 to 15, and with `EXTENDED` also `INTENT_TO_ADD` and
    /// `SKIP_WORKTREE`.
    pub fn to_stored(self) -> Flags
        ensures { result.0 ≡ stored_flags self.0 }
    {
        if self.0 & 0x4000 != 0x4000 {
            return Flags(self.0 & 0xf000);
        }
        Flags(self.0 & 0x6000_f000)
    }
}

impl From<Stage> for Flags {
    ghost use Rattle.entry_fields.specs.Flags.{stage_code};

    ghost from_gives = { λ stage flags. flags.0 ≡ stage_code stage * 4096 };

    fn from(stage: Stage) -> Flags {
        Flags::from_stage(stage)
    }
}
