use std::alloc::{AllocError, Global};
use std::test::Fail;
use test_calls::{called, executed};
use test_models::MADE;

const COMPILED: &str = "compiled rows 11 systems 2 functions 3\n";

const TEXT: &str =
    "compiled rows 11 systems 2 functions 3\n1045 959\n-2168 -3213\n-887 1281\n-3260 -2373\nticks 4 steps * calls 20\n";

const TRACE: &[u8] = b"137\n-459\n183\n-339\n";

/// What is after as many bytes as a text has.
fn behind<'a>(bytes: &'a [u8], text: &str) -> &'a [u8] {
    bytes.get(text.len()..).unwrap_or(&[])
}

/// Whether a call that makes the smallest model, over a host that has no such file, ends so; whether it writes the model and then
/// its code; and whether that code prints by `exec` over its trace what is printed of it here.
fn smallest(alloc: Global) -> Result<[bool; 3], AllocError> {
    let done = called(alloc, "gen 1 1 g.mdl g.c", b"", &[], &[], 4096)?;
    let code = behind(&done.code, MADE);
    let are_written = done.code.starts_with(MADE.as_bytes())
        && code.starts_with(b"#include <stdint.h>\n");
    let again = executed(alloc, code, TRACE)?;
    let is_put_again = again.status == 0
        && again.files == 0
        && again.text.as_slice() == behind(&done.text, COMPILED);
    Ok([done.ended_with(0, TEXT, 2), are_written, is_put_again])
}

#[test]
fn the_smallest_model(rt: HostRuntime) -> Result<(), Fail> {
    assert_eq!(rt; smallest(rt.alloc())?, [true, true, true]);
    Ok(())
}
