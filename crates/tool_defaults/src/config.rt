//! The hash algorithm of ids in a repository's `config` file.

ghost use Rattle.std.specs.Prelude.{◌≡◌, ◌==◌, map};
ghost use Rattle.std.specs.List.{after_first, before_first, position};
ghost use Rattle.std.specs.Char.{to_ascii_lowercase};
ghost use Rattle.std.specs.Option.{option_copied};
ghost use Rattle.tool_defaults.specs.Config.{content_of, format_of, format_value, is_in_extensions, is_named};
ghost use Rattle.tool_defaults.specs.Config.{kind_named, config_line_value, section_of, setting_of, trimmed};
ghost use Rattle.tool_defaults.specs.Config.{unquoted_value};

use gix_index::hash::Kind;

/// Returns the position of the first byte of this value.
fn place_of(text: &[u8], byte: u8) -> Option<usize>
    ensures { result ≡ position (λ b. b == byte) text.now }
{
    text.iter().position(|b| *b == byte)
}

/// Returns what precedes the first byte of this value, and what follows it. If there is none, returns all and nothing.
fn split_at_byte(text: &[u8], at: u8) -> (&[u8], &[u8])
    ensures before { result.0.now ≡ before_first (λ b. b == at) text.now }
    ensures after { result.1.now ≡ after_first (λ b. b == at) text.now }
{
    match place_of(text, at) {
        Some(place) => (&text[..place], &text[place + 1..]),
        None => (text, &[]),
    }
}

/// Returns a text without the white space at both ends.
fn trim_white_space(text: &[u8]) -> &[u8]
    ensures { result.now ≡ trimmed text.now }
{
    text.trim_ascii()
}

/// Returns the content of a line, without a comment.
fn content_of(line: &[u8]) -> &[u8]
    ensures { result.now ≡ content_of line.now }
{
    let (line, _) = split_at_byte(line, b'#');
    let (line, _) = split_at_byte(line, b';');
    trim_white_space(line)
}

/// Returns whether a section or a setting has this name, which is given in lower case.
fn is_named(text: &[u8], name: &[u8]) -> bool
    requires { name.now ≡ map to_ascii_lowercase name.now }
    ensures { result ≡ is_named name.now text.now }
{
    text.eq_ignore_ascii_case(name)
}

/// Returns the name of the section that begins on a line, if one does, and the setting after it, or else on the line.
fn section_of(content: &[u8]) -> (Option<&[u8]>, &[u8])
    ensures name { option_copied result.0 ≡ section_of content.now }
    ensures setting { result.1.now ≡ setting_of content.now }
{
    match content.strip_prefix(b"[") {
        Some(rest) => {
            let (name, setting) = split_at_byte(rest, b']');
            (Some(name), setting)
        }
        None => (None, content),
    }
}

/// Returns a value without the quotes around it.
fn unquoted(value: &[u8]) -> &[u8]
    ensures { result.now ≡ unquoted_value value.now }
{
    let Some(inner) = value.strip_prefix(b"\"") else {
        return value;
    };
    match inner.strip_suffix(b"\"") {
        Some(inner) => inner,
        None => value,
    }
}

/// Returns the value that a setting gives to `objectFormat`, if that is its name.
fn format_value(setting: &[u8]) -> Option<&[u8]>
    ensures { option_copied result ≡ format_value setting.now }
{
    let (name, value) = split_at_byte(setting, b'=');
    if is_named(trim_white_space(name), b"objectformat") {
        return Some(unquoted(trim_white_space(value)));
    }
    None
}

/// Returns the value that a line gives to `extensions.objectFormat`, if it does. `in_extensions` is whether the section
/// `extensions` is in force before the line, and becomes whether it is in force after it.
fn line_value<'a>(line: &'a [u8], in_extensions: &mut bool) -> Option<&'a [u8]>
    ensures section { in_extensions.new ≡ is_in_extensions in_extensions.old (content_of line.now) }
    ensures value { option_copied result ≡ config_line_value in_extensions.old (content_of line.now) }
{
    let (section, setting) = section_of(content_of(line));
    if let Some(name) = section {
        *in_extensions = is_named(name, b"extensions");
    }
    if *in_extensions {
        return format_value(setting);
    }
    None
}

/// Returns the hash algorithm that a value names, if it names one.
fn kind_named(value: &[u8]) -> Option<Kind>
    ensures { result ≡ kind_named value.now }
{
    if value == b"sha1".as_slice() {
        Some(Kind::Sha1)
    } else if value == b"sha256".as_slice() {
        Some(Kind::Sha256)
    } else {
        None
    }
}

/// Returns the hash algorithm of a repository's ids by the text of its `config`, as git writes it (git-config,
/// "CONFIGURATION FILE"). It is the one that the last value of `extensions.objectFormat` names, and SHA-1 if none is
/// set. Returns `None` if that value is neither `sha1` nor `sha256`.
///
/// The text is read line by line. These are not read: a value that continues on another line, escapes in it, quotes
/// within it, a second section on one line, and files that it includes.
pub fn format_of(text: &[u8]) -> Option<Kind>
    ensures { result ≡ format_of text.now }
{
    let mut in_extensions = false;
    let mut kind = Some(Kind::Sha1);
    for line in text.split(|b| *b == b'\n') {
        if let Some(value) = line_value(line, &mut in_extensions) {
            kind = kind_named(value);
        }
    }
    kind
}
