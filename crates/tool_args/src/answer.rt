//! What the program prints if the arguments are no command to run.

ghost use Rattle.std.specs.Prelude.{◌≡◌};
ghost use Rattle.tool_args.specs.Answers.{answer_of, is_asked_for, status_of};
ghost use Rattle.tool_args.specs.declared.answer.Answer.TheVariants.{OutOfMemory};

use crate::cause::Cause;
use clap::error::ErrorKind;
use std::alloc::AllocError;
use thiserror::Error;

/// What the program prints instead of running a command. Its text ends with a newline.
#[derive(Debug, Drop, Error)]
pub enum Answer {
    /// The help, which the arguments request.
    #[error("{0}")]
    Help(clap::Error),
    /// The version, which the arguments request.
    #[error("{0}")]
    Version(clap::Error),
    /// A usage error, on one line.
    #[error("index-tool: {}\n", Cause(.0))]
    WrongWords(clap::Error),
    /// An allocation failed.
    #[error("index-tool: out of memory\n")]
    OutOfMemory,
}

/// The status of an answer that was requested.
pub const DONE: u8 = 0;
/// The status after an allocation failure.
pub const REFUSED: u8 = 1;
/// The status of a usage error.
pub const WRONG_WORDS: u8 = 2;

impl Answer {
    /// Returns whether the arguments requested the answer, so that it is written to the standard output. Any other
    /// answer is written to the standard error.
    pub fn is_asked_for(&self) -> bool
        ensures { result ≡ is_asked_for self.now }
    {
        matches!(self, Answer::Help(_) | Answer::Version(_))
    }

    /// Returns the status with which the program ends. It is [`DONE`] for what was requested, [`WRONG_WORDS`] for a
    /// usage error, and [`REFUSED`] if memory ran out.
    pub fn status(&self) -> u8
        ensures { result ≡ status_of self.now }
    {
        match self {
            Answer::Help(_) | Answer::Version(_) => DONE,
            Answer::WrongWords(_) => WRONG_WORDS,
            Answer::OutOfMemory => REFUSED,
        }
    }
}

impl From<clap::Error> for Answer {
    ghost from_gives = { λ e answer. answer ≡ answer_of e };

    fn from(error: clap::Error) -> Answer {
        match error.kind() {
            ErrorKind::DisplayHelp => Answer::Help(error),
            ErrorKind::DisplayVersion => Answer::Version(error),
            ErrorKind::OutOfMemory => Answer::OutOfMemory,
            _ => Answer::WrongWords(error),
        }
    }
}

impl From<AllocError> for Answer {
    ghost from_gives = { λ _ answer. answer ≡ OutOfMemory };

    fn from(_error: AllocError) -> Answer {
        Answer::OutOfMemory
    }
}
