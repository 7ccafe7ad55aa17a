//! Rows about the values of an entry: flags, stages, modes, times and paths.

use gix_index::entry::{FileTime, Flags, Mode, at_rest};
use gix_index::{BitFlags as _, Entry};
use test_row_kit::show::{FileSeconds, OrNone, sign_of, stage_of, yes};
use test_row_kit::{Fault, Lines, Words};

/// The calls about values of an entry.
#[derive(Clone, Copy)]
pub enum Call {
    /// `flags`: flags in memory, and what a file stores of them.
    Flags,
    /// `word`: the first 16 bits of flags in a file.
    Word,
    /// `second-word`: the second 16 bits of flags in a file.
    SecondWord,
    /// `stage`: a stage, and the flags that have it.
    Stage,
    /// `mode`: the bits of a mode, and what a file stores of them.
    Mode,
    /// `time`: the time of a file.
    Time,
    /// `compare`: the order of two paths.
    Compare,
}

impl Call {
    /// Returns the call of this name.
    pub fn named(word: &str) -> Option<Call> {
        match word {
            "flags" => Some(Call::Flags),
            "word" => Some(Call::Word),
            "second-word" => Some(Call::SecondWord),
            "stage" => Some(Call::Stage),
            "mode" => Some(Call::Mode),
            "time" => Some(Call::Time),
            "compare" => Some(Call::Compare),
            _ => None,
        }
    }

    /// Appends the lines of the call's answer. `words` are the arguments after the call.
    pub fn answer(self, words: &mut Words<'_>, out: &mut Lines) -> Result<(), Fault> {
        match self {
            Call::Flags => flags(out, words.hex()?),
            Call::Word => word(out, word_of(words)?),
            Call::SecondWord => second_word(out, word_of(words)?),
            Call::Stage => stage(out, words)?,
            Call::Mode => mode(out, words.octal()?),
            Call::Time => time(out, words)?,
            Call::Compare => {
                let (path, other) = (words.text()?, words.text()?);
                out.put(
                    "cmp_filepaths",
                    sign_of(Entry::cmp_filepaths(&path, &other)),
                );
            }
        }
        Ok(())
    }
}

fn flags(out: &mut Lines, bits: u32) {
    let Some(flags) = Flags::from_bits(bits) else {
        return out.put("flags", "none");
    };
    let second = at_rest::FlagsExtended::from_flags(flags);
    writeln!(out, "flags: {:08x}", flags.bits());
    out.put("stage_raw", flags.stage_raw());
    out.put("stage", stage_of(flags.stage()));
    writeln!(out, "first word: {:04x}", flags.to_storage().bits());
    writeln!(out, "second word: {:04x}", second.bits());
    writeln!(out, "stored flags: {:08x}", flags.to_stored().bits());
}

/// Takes 16 bits in digits of base 16.
fn word_of(words: &mut Words<'_>) -> Result<u16, Fault> {
    let Ok(word) = u16::try_from(words.hex()?) else {
        return Err(Fault::Wrong("16 bits"));
    };
    Ok(word)
}

fn word(out: &mut Lines, bits: u16) {
    let word = at_rest::Flags::from_bits_retain(bits);
    writeln!(out, "bits: {:04x}", word.bits());
    writeln!(out, "flags: {:08x}", word.to_memory().bits());
}

fn second_word(out: &mut Lines, bits: u16) {
    let word = at_rest::FlagsExtended::from_bits_retain(bits);
    writeln!(out, "bits: {:04x}", word.bits());
    match word.to_flags() {
        Some(flags) => writeln!(out, "flags: {:08x}", flags.bits()),
        None => out.put("flags", "none"),
    }
}

fn stage(out: &mut Lines, words: &mut Words<'_>) -> Result<(), Fault> {
    let Some(stage) = words.stage()? else {
        return Err(Fault::Missing("a stage"));
    };
    let (flags, same) = (Flags::from_stage(stage), Flags::from(stage));
    out.put("stage", stage_of(flags.stage()));
    writeln!(out, "from_stage: {:08x}", flags.bits());
    writeln!(out, "from: {:08x}", same.bits());
    Ok(())
}

fn mode(out: &mut Lines, bits: u32) {
    let mode = Mode::from_bits_truncate(bits);
    let stored = Mode::from_bits_retain(bits).to_stored();
    writeln!(out, "from_bits_truncate: {:o}", mode.bits());
    writeln!(out, "stored mode: {:o}", stored.bits());
    out.put("is_sparse", yes(mode.is_sparse()));
    out.put("is_submodule", yes(mode.is_submodule()));
}

fn time(out: &mut Lines, words: &mut Words<'_>) -> Result<(), Fault> {
    let (seconds, nanoseconds) = words.seconds()?;
    let time = FileTime::new(seconds, nanoseconds);
    out.put("time", OrNone(time.map(FileSeconds)));
    Ok(())
}
