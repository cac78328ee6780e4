//! Inputs that are no text or too long.

use engines::Unwatched;
use engines::replay::replay;
use host_file::{Cause, FileFault, Key, MAX_BYTES};
use std::alloc::Global;
use std::io;
use std::io::Read;

/// What is wrong with the file that a reader gives, where it is a bad one.
fn wrong_with<R: Read>(alloc: Global, reader: &mut R) -> Option<Cause> {
    let (mut output, mut words) = (io::sink(), io::sink());
    match replay(alloc, reader, &mut output, &mut words, &mut Unwatched) {
        Err(FileFault::Bad(file)) => Some(file.cause),
        _ => None,
    }
}

#[test]
fn bytes_that_are_no_text_are_a_bad_file(rt: HostRuntime) {
    let mut bytes: &[u8] = b"tenants = 1\n# \xff\nframes = 2\n";
    let cause = wrong_with(rt.alloc(), &mut bytes);
    assert!(rt; matches!(&cause, Some(Cause::NotText)));
}

/// What is wrong with a file that is one character so many times; of `#` it is one comment.
fn wrong_with_many(alloc: Global, byte: u8, size: u64) -> Option<Cause> {
    wrong_with(alloc, &mut io::repeat(byte).take(size))
}

/// Up to the limit it is read, and is a file without a key.
#[test]
fn a_file_has_a_limit(rt: HostRuntime) {
    let most = wrong_with_many(rt.alloc(), b'#', MAX_BYTES as u64);
    let more = wrong_with_many(rt.alloc(), b'#', MAX_BYTES as u64 + 1);
    let is_read = matches!(&most, Some(Cause::Missing(Key::Tenants)));
    assert!(rt; is_read && matches!(&more, Some(Cause::TooLong)));
}

/// Up to the limits of characters that make tables and members it is read, and is no TOML.
#[test]
fn a_file_has_limits_of_characters(rt: HostRuntime) {
    let dots = wrong_with_many(rt.alloc(), b'.', 300_000);
    let more_dots = wrong_with_many(rt.alloc(), b'.', 300_001);
    let are_read = matches!(&dots, Some(Cause::NotToml(_)));
    assert!(rt; are_read && matches!(&more_dots, Some(Cause::TooManyOpenings)));
    let equals = wrong_with_many(rt.alloc(), b'=', 1_000_000);
    let more_equals = wrong_with_many(rt.alloc(), b'=', 1_000_001);
    let are_read = matches!(&equals, Some(Cause::NotToml(_)));
    assert!(rt; are_read && matches!(&more_equals, Some(Cause::TooManyEquals)));
}
