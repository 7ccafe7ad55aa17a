//! The two words of an entry's flags in a file (gitformat-index, "Index entry").

ghost use Rattle.std.specs.Prelude.{◌≡◌, ◌*◌, ◌^◌, ⊤, [], ◌∷◌, codes, IsSomeAnd};
ghost use Rattle.entry_fields.specs.Flags.{extended_flags, storage_flags};

use super::flags;
use bitflags::{Flag, Flags as _, bitflag_items};

/// The first word: the length field, the stage and two flags of one bit. All of its 16 bits have a name.
#[derive(Clone, Copy, Debug, PartialEq, Eq)]
pub struct Flags(u16);

bitflag_items! {
    impl Flags: u16 {
        const PATH_LEN = 0x0fff;
        const STAGE_MASK = 0x3000;
        const EXTENDED = 0x4000;
        const ASSUME_VALID = 0x8000;
    }
}

impl bitflags::Flags for Flags {
    type Bits = u16;

    ghost exact = { ⊤ };

    ghost table = { (codes "PATH_LEN", 0x0fff) ∷ (codes "STAGE_MASK", 0x3000)
        ∷ (codes "EXTENDED", 0x4000) ∷ (codes "ASSUME_VALID", 0x8000) ∷ [] };

    ghost set_of = { λ f. f.0 };

    fn flags<'a>() -> &'a [Flag<Flags>] {
        Flags::FLAGS
    }

    fn bits(&self) -> u16 {
        self.0
    }

    fn from_bits_retain(bits: u16) -> Flags {
        Flags(bits)
    }
}

impl Flags {
    /// Returns the 16 bits as flags in memory, including the length field.
    pub fn to_memory(self) -> flags::Flags
        ensures { result.0 ≡ self.0 }
    {
        flags::Flags::from_bits_retain(u32::from(self.0))
    }
}

/// The second word, which is there if the first has `EXTENDED`. A file sets no other bit of it.
#[derive(Clone, Copy, Debug, PartialEq, Eq)]
pub struct FlagsExtended(u16);

bitflag_items! {
    impl FlagsExtended: u16 {
        const INTENT_TO_ADD = 0x2000;
        const SKIP_WORKTREE = 0x4000;
    }
}

impl bitflags::Flags for FlagsExtended {
    type Bits = u16;

    ghost exact = { ⊤ };

    ghost table = { (codes "INTENT_TO_ADD", 0x2000) ∷ (codes "SKIP_WORKTREE", 0x4000) ∷ [] };

    ghost set_of = { λ f. f.0 };

    fn flags<'a>() -> &'a [Flag<FlagsExtended>] {
        FlagsExtended::FLAGS
    }

    fn bits(&self) -> u16 {
        self.0
    }

    fn from_bits_retain(bits: u16) -> FlagsExtended {
        FlagsExtended(bits)
    }
}

impl FlagsExtended {
    /// Returns the second word for flags in memory: bits 29 and 30, shifted right by sixteen bits.
    pub fn from_flags(flags: flags::Flags) -> FlagsExtended
        ensures { result.0 ≡ extended_flags flags.0 }
    {
        FlagsExtended(((flags.bits() >> 16) & 0x6000) as u16)
    }

    /// Returns the word as flags in memory, shifted left by sixteen bits. Each bit has a name there, so the result is
    /// never None.
    pub fn to_flags(self) -> Option<flags::Flags>
        ensures { IsSomeAnd result (λ flags. flags.0 ≡ self.0 * 2 ^ 16) }
    {
        Some(flags::Flags::from_bits_retain(u32::from(self.0) << 16))
    }
}

impl flags::Flags {
    /// Returns the first word of a file's flags, with a length field of zero: bits 12 to 15.
    pub fn to_storage(self) -> Flags
        ensures { result.0 ≡ storage_flags self.0 }
    {
        Flags::from_bits_retain((self.bits() & 0xf000) as u16)
    }
}
