//! Runs of texts whose lines of a name have equal values.

use test_row_kit::Lines;

/// Appends a line for each longest range of indices into `texts` for which the line `name` has one value. Texts without
/// this line are left out.
pub fn ranges(out: &mut Lines, texts: &[String], name: &str) {
    let mut first = 0;
    for run in texts.chunk_by(|text, next| value_in(text, name) == value_in(next, name)) {
        let end = usize::saturating_add(first, run.len());
        let last = end.saturating_sub(1);
        if let Some(value) = run.first().and_then(|text| value_in(text, name)) {
            writeln!(out, "{first}..={last}: {name}: {value}");
        }
        first = end;
    }
}

/// Returns the value in the first line with this name.
fn value_in<'a>(text: &'a str, name: &str) -> Option<&'a str> {
    for line in text.lines() {
        if let Some((found, value)) = line.split_once(": ") {
            if found == name {
                return Some(value);
            }
        }
    }
    None
}
