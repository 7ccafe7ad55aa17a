//! Lines for the errors of the library: which error it is, with the values that it carries.

use crate::Lines;
use crate::show::Text;
use gix_index::decode::{self, header};
use gix_index::extension::link;
use gix_index::file::init;
use gix_index::{ewah, extension, write};

/// Appends the line of an error of decoding an index.
pub fn decode(out: &mut Lines, refusal: &decode::Error) {
    match refusal {
        decode::Error::Header(refusal) => header(out, refusal),
        decode::Error::Hasher => out.put("fault", "hasher"),
        decode::Error::OutOfMemory => out.put("fault", "past the limit"),
        decode::Error::Entry { index } => writeln!(out, "fault: entry {index}"),
        decode::Error::Extension(refusal) => extension(out, refusal),
        decode::Error::UnexpectedTrailerLength { expected, actual } => {
            writeln!(out, "fault: trailer of {actual} bytes, not {expected}");
        }
        decode::Error::Verify { actual, expected } => {
            writeln!(out, "fault: digest {actual}, not {expected}");
        }
        decode::Error::Memory => out.put("fault", "memory"),
    }
}

fn header(out: &mut Lines, refusal: &header::Error) {
    match refusal {
        header::Error::Corrupt(text) => writeln!(out, "fault: header: {text}"),
        header::Error::UnsupportedVersion(number) => writeln!(out, "fault: version {number}"),
    }
}

fn extension(out: &mut Lines, refusal: &extension::decode::Error) {
    match refusal {
        extension::decode::Error::MandatoryUnimplemented { signature } => {
            writeln!(out, "fault: mandatory {}", Text(signature));
        }
        extension::decode::Error::Link(refusal) => link(out, refusal),
    }
}

/// Appends the line of an error of decoding a link extension.
pub fn link(out: &mut Lines, refusal: &link::decode::Error) {
    match refusal {
        link::decode::Error::Corrupt(text) => writeln!(out, "fault: link: {text}"),
        link::decode::Error::BitmapDecode { err, kind } => {
            writeln!(out, "fault: link, {kind} bitmap: {}", part_of(err));
        }
        link::decode::Error::Memory => out.put("fault", "memory"),
    }
}

/// Appends the line of an error of decoding a bitmap.
pub fn bitmap(out: &mut Lines, refusal: &ewah::Error) {
    writeln!(out, "fault: bitmap: {}", part_of(refusal));
}

/// Returns the name of the part of a bitmap that can't be read.
fn part_of(refusal: &ewah::Error) -> &'static str {
    match refusal {
        ewah::Error::NumBits => "number of bits",
        ewah::Error::Length => "number of words",
        ewah::Error::Words => "words",
        ewah::Error::LastRun => "last run word",
        ewah::Error::Memory => "memory",
    }
}

/// Appends the line of an error of reading an index file.
pub fn file(out: &mut Lines, refusal: &init::Error) {
    match refusal {
        init::Error::Io(_) => out.put("fault", "file"),
        init::Error::Decode(refusal) => decode(out, refusal),
        init::Error::LinkExtension(refusal) => link(out, refusal),
        init::Error::Memory => out.put("fault", "memory"),
    }
}

/// Appends the line of an error of writing an index.
pub fn write(out: &mut Lines, refusal: &write::Error) {
    match refusal {
        write::Error::TooManyEntries => out.put("fault", "too many entries"),
        write::Error::NulInPath => out.put("fault", "nul in a path"),
        write::Error::TooLarge => out.put("fault", "too large"),
        write::Error::Io(_) => out.put("fault", "writer"),
    }
}
