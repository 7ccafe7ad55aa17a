//! Tests of the default options of writing.

use gix_index::write::{Extensions, Options};
use std::process::Abort;

#[test]
fn default_options(rt: HostRuntime) {
    assert_eq!(rt; Options::default().extensions, Extensions::All);
    assert!(rt; !Options::default().skip_hash);
}
