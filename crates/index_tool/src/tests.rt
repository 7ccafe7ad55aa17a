//! What the arguments of a call do, on files.

use crate::run;
use std::alloc::Global;
use std::fs;
use std::test::Fail;

/// The header of an index of version 2 without the last byte of its count.
const HEADER: &[u8] = b"DIRC\0\0\0\x02\0\0\0";

/// What precedes the path of an entry: no times, the mode 100644, an id of ones, and the path's length of 1.
const FRONT: &[u8] =
    b"\0\0\0\0\0\0\0\0\0\0\0\0\0\0\0\0\0\0\0\0\0\0\0\0\0\0\x81\xa4\0\0\0\0\0\0\0\0\0\0\0\0\
    \x11\x11\x11\x11\x11\x11\x11\x11\x11\x11\x11\x11\x11\x11\x11\x11\x11\x11\x11\x11\0\x01";

/// What `sha1sum` prints for the index of the entry `a`.
const DIGEST: [u8; 20] = [
    0x8a, 0xd3, 0x44, 0xe4, 0x4b, 0x15, 0x14, 0xb6, 0x9c, 0x3d, 0x31, 0x88, 0xa2, 0x48, 0x33, 0x12,
    0xdc, 0x74, 0x33, 0x6d,
];

/// The arguments of a call, its status, and what is written to the output.
type Call<'a> = (&'a [&'a str], u8, &'a str);

const LISTED: &str = "100644 1111111111111111111111111111111111111111 0\ta\n";

const CALLS: [Call; 11] = [
    (&["list"], 2, ""),
    (&["list", "f1"], 2, ""),
    (&["list", "sha1", "f1"], 0, LISTED),
    (&["check", "sha1", "f1"], 0, "ok\n"),
    (&["check", "sha1", "falling"], 1, ""),
    (&["rewrite", "sha1", "f1", "again"], 0, ""),
    (&["check", "sha1", "again"], 0, "ok\n"),
    (&["rewrite4", "sha1", "f1", "four"], 0, ""),
    (&["list", "sha1", "four"], 0, LISTED),
    (&["rewrite", "sha1", "four", "back"], 0, ""),
    (&["list", "sha1", "gone"], 1, ""),
];

/// Returns an index of entries with these paths of one byte, and this trailer.
fn index(alloc: Global, paths: &[u8], trailer: [u8; 20]) -> Result<Vec<u8>, Fail> {
    let mut bytes = Vec::new(alloc);
    bytes.extend_from_slice(HEADER)?;
    bytes.push(if paths.len() == 2 { 2 } else { 1 })?;
    for path in paths {
        bytes.extend_from_slice(FRONT)?;
        bytes.extend_from_slice(&[*path, 0])?;
    }
    bytes.extend_from_slice(&trailer)?;
    Ok(bytes)
}

/// Returns the status of these arguments, what is written to the output, and the number of error lines.
fn answered(rt: &HostRuntime, words: &[&str]) -> Result<(u8, Vec<u8>, usize), Fail> {
    let alloc = rt.alloc();
    let mut texts = Vec::new(alloc);
    for word in words {
        texts.push(String::from_str(alloc, word)?)?;
    }
    let (mut out, mut faults) = (Vec::new(alloc), Vec::new(alloc));
    let status = run(rt, alloc, &texts, &mut out, &mut faults);
    let lines = faults.iter().filter(|byte| **byte == b'\n').count();
    Ok((status, out, lines))
}

#[test]
fn calls(rt: HostRuntime) -> Result<(), Fail> {
    fs::write(&rt, "f1", &index(rt.alloc(), b"a", [0; 20])?)?;
    fs::write(&rt, "falling", &index(rt.alloc(), b"ba", [0; 20])?)?;
    for (words, status, out) in CALLS {
        let (got, printed, lines) = answered(&rt, words)?;
        assert_eq!(rt; got, status, "{words:?}");
        assert_eq!(rt; lines == 1, status != 0, "{words:?}");
        assert_eq!(rt; printed.as_slice(), out.as_bytes(), "{words:?}");
    }
    let wanted = index(rt.alloc(), b"a", DIGEST)?;
    for name in ["again", "back"] {
        assert_eq!(rt;
            fs::read(&rt, name)?.as_slice(),
            wanted.as_slice(),
            "{name}"
        );
    }
    for name in ["f1", "falling", "again", "four", "back"] {
        fs::remove_file(&rt, name)?;
    }
    Ok(())
}
