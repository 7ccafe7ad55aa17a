//! The commands as values.

use base_text::lines::Lines;
use index_parts::hash::Kind;

/// A command with its arguments. A hash algorithm of `None`, which `--auto` allows, is detected from the file.
#[derive(Clone, Copy, Debug, PartialEq, Eq)]
pub enum Command<'a> {
    /// A command that reads an index and prints something.
    Read {
        /// What is printed.
        what: Reading,
        /// The hash algorithm of its ids.
        kind: Option<Kind>,
        /// The location of the index. `None`, which `--auto` allows, is the index of the work tree that contains the
        /// current directory.
        input: Option<Input<'a>>,
    },
    /// A command that writes an index.
    Write {
        /// What is written.
        what: Writing,
        /// The hash algorithm of its ids.
        kind: Option<Kind>,
        /// The location of the index that is read.
        input: Input<'a>,
        /// The path that is written to.
        to: &'a str,
    },
}

/// The location of an index.
#[derive(Clone, Copy, Debug, PartialEq, Eq)]
pub enum Input<'a> {
    /// The standard input, which the argument `-` names.
    Stdin,
    /// The file at this path.
    File(&'a str),
    /// The file at this path; the standard input has the changes to it.
    Changed(&'a str),
}

/// What is printed of an index.
#[derive(Clone, Copy, Debug, PartialEq, Eq)]
pub enum Reading {
    /// `list`: a line for each entry.
    List(Lines),
    /// `check`: whether it is valid.
    Check {
        /// `--strict`: also whether git accepts each entry.
        strict: bool,
    },
    /// `check-trees`: whether it is valid, and whether its cache tree matches the entries.
    CheckTrees {
        /// `--strict`: also whether git accepts each entry.
        strict: bool,
    },
    /// `map`: a line for each part of the file, up to its first error.
    Map(Lines),
    /// `map-svg`: a picture of these parts.
    MapSvg,
    /// `show`: what the file holds.
    Show,
    /// `show-json`: what the file holds, as JSON.
    ShowJson,
    /// `trees`: a line for each directory of the trees that the entries make.
    Trees(Lines),
}

/// What is written of an index.
#[derive(Clone, Copy, Debug, PartialEq, Eq)]
pub enum Writing {
    /// `rewrite`: the index again, with the default options.
    Rewrite {
        /// `--keep`: in version 4 if it has that version, and with all its extensions that fit.
        keep: bool,
    },
    /// `rewrite4`: the index again, in version 4.
    Rewrite4 {
        /// `--keep`: with all its extensions that fit.
        keep: bool,
    },
    /// `rewrite-trees`: the index with a rebuilt cache tree.
    RewriteTrees {
        /// `--missing-ok`: each directory has its count and id, even if no object store has the tree yet.
        missing_ok: bool,
    },
    /// `update`: the index with changes, which replaces the file it was read from.
    Update {
        /// `-z`: lines of changes end in a NUL, and no path is quoted.
        nul: bool,
    },
    /// `salvage`: what can be saved of a damaged index.
    Salvage {
        /// `--all`: also what is well formed after the first invalid entry.
        all: bool,
    },
}
