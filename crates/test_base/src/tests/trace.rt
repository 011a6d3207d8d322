ghost use Rattle.std.specs.Prelude.{◌≤◌, length};

use super::{BOOLEAN, INT8, INT32};
use base_fixed_point::FixType;
use std::alloc::{AllocError, Global};
use std::test::Fail;
use tool_plain_rows::read_plain_row;
use tool_traces::{BadLine, BadWhy, Next, last_row, next_line, next_row, read_row};

const fn bad(line: u32, why: BadWhy) -> BadLine {
    BadLine { line, why }
}

const AB: &[u8] = b"ab\r\nc";

// So many digits, and what is after them.
fn digits(alloc: Global, count: usize, end: &str) -> Result<Vec<u8>, AllocError> {
    let mut text = vec![in alloc; b'1'; count]?;
    text.extend_from_slice(end.as_bytes())?;
    Ok(text)
}

// The first line of such a text.
fn line_of(alloc: Global, count: usize, end: &str, is_last: bool) -> Result<Next, AllocError> {
    let text = digits(alloc, count, end)?;
    Ok(next_line(&text, 0, is_last))
}

/// So many digits, what is after them, whether the text is whole, and what its first line is.
const LONG_LINES: &[(usize, &str, bool, Next)] = &[
    (
        4096,
        "",
        true,
        Next::Line {
            start: 0,
            end: 4096,
            after: 4096,
        },
    ),
    (4096, "\r", false, Next::More),
    (4096, "\r", true, Next::Long),
    (
        4096,
        "\r\n",
        true,
        Next::Line {
            start: 0,
            end: 4096,
            after: 4098,
        },
    ),
    (4097, "", false, Next::Long),
];

#[test]
fn lines_are_found(rt: HostRuntime) -> Result<(), Fail> {
    for &(text, from, is_last, start, end, after) in &[
        (AB, 0, false, 0, 2, 4),
        (AB, 4, true, 4, 5, 5),
        (b"\n", 0, true, 0, 0, 1),
        (b"1\r", 0, true, 0, 2, 2),
    ] {
        let line = Next::Line { start, end, after };
        assert_eq!(rt; next_line(text, from, is_last), line);
    }
    let others = (next_line(AB, 4, false), next_line(AB, 5, true));
    assert_eq!(rt; others, (Next::More, Next::End));
    for &(count, end, is_last, want) in LONG_LINES {
        let line = line_of(rt.alloc(), count, end, is_last)?;
        assert_eq!(rt; line, want, "{count} {end:?} {is_last}");
    }
    Ok(())
}

// What a text writes as a row of these types.
fn row_of(text: &[u8], types: &[FixType]) -> Result<[i64; 2], BadWhy>
    requires { length types.now ≤ 2 }
{
    let mut into = [9, 9];
    read_row(text, types, &mut into[..types.len()])?;
    Ok(into)
}

// What a row is of one more digit than it may have.
fn long_row(alloc: Global) -> Result<Result<[i64; 2], BadWhy>, AllocError> {
    let text = digits(alloc, 4097, "")?;
    Ok(row_of(&text, &[]))
}

#[test]
fn rows_are_read(rt: HostRuntime) -> Result<(), Fail> {
    // of two booleans
    for &(text, want) in &[
        ("-0 000000000000000001", Ok([0, 1])),
        ("+1 2", Err(BadWhy::Form(1))),
        ("1 2", Err(BadWhy::Range(2))),
        ("2 x", Err(BadWhy::Range(1))),
        ("1 1000000000000000000", Err(BadWhy::Form(2))),
        ("0 -", Err(BadWhy::Form(2))),
        ("1", Err(BadWhy::Count(1))),
    ] {
        let row = row_of(text.as_bytes(), &[BOOLEAN, BOOLEAN]);
        assert_eq!(rt; row, want, "{text}");
    }
    // of other types, and of none
    let others = [
        row_of(b" -4 \t1 ", &[INT32, BOOLEAN]),
        row_of(b"1 2 x", &[INT32]),
        row_of(b" ", &[]),
        long_row(rt.alloc())?,
    ];
    assert_eq!(rt;
        others,
        [
            Ok([-4, 1]),
            Err(BadWhy::Count(3)),
            Ok([9, 9]),
            Err(BadWhy::Long)
        ]
    );
    Ok(())
}

// What a text writes as a row of so many numbers without types.
fn plain_row_of(text: &[u8], count: usize) -> Result<[i64; 2], BadWhy>
    requires { count ≤ 2 }
{
    let mut into = [9, 9];
    read_plain_row(text, &mut into[..count])?;
    Ok(into)
}

#[test]
fn plain_rows_are_read(rt: HostRuntime) {
    let ends = Ok([-2_147_483_648, 4_294_967_295]);
    for &(text, count, want) in &[
        (" -2147483648\t4294967295 ", 2, ends),
        ("-0 000000000000000001", 2, Ok([0, 1])),
        (" ", 0, Ok([9, 9])),
        ("-2147483649", 1, Err(BadWhy::Range(1))),
        ("0 4294967296", 2, Err(BadWhy::Range(2))),
        ("4294967296 x", 2, Err(BadWhy::Range(1))),
        ("x 4294967296", 2, Err(BadWhy::Form(1))),
        ("1000000000000000000", 1, Err(BadWhy::Form(1))),
        ("7", 2, Err(BadWhy::Count(1))),
        ("1 2 x", 1, Err(BadWhy::Count(3))),
    ] {
        let row = plain_row_of(text.as_bytes(), count);
        assert_eq!(rt; row, want, "{text}");
    }
}

const ROWS: &[u8] = b"5\n200\r\n-7";

// Rows from a place on after so many lines; the last has no end.
#[test]
fn rows_follow_each_other(rt: HostRuntime) {
    let mut into = [0];
    let first = next_row(ROWS, 0, 0, &[INT8], &mut into);
    let stored = into;
    let last = next_row(ROWS, 7, 2, &[INT8], &mut into);
    let beyond = next_row(ROWS, 2, 1, &[INT8], &mut into);
    let many = next_row(ROWS, 0, u32::MAX, &[INT8], &mut into);
    assert_eq!(rt;
        ((first, stored), last, beyond, many),
        (
            (Ok(Some(2)), [5]),
            Ok(None),
            Err(bad(2, BadWhy::Range(1))),
            Err(bad(u32::MAX, BadWhy::Many))
        )
    );
}

#[test]
fn the_last_row_needs_no_end(rt: HostRuntime) {
    let mut into = [0];
    let last = last_row(b"-7", 2, &[INT8], &mut into);
    let stored = into;
    let empty = last_row(b"", 2, &[INT8], &mut into);
    let many = last_row(b"x", u32::MAX, &[INT8], &mut into);
    let other = last_row(b"x", 2, &[INT8], &mut into);
    assert_eq!(rt;
        ((last, stored), empty, many, other),
        (
            (Ok(true), [-7]),
            Ok(false),
            Err(bad(u32::MAX, BadWhy::Many)),
            Err(bad(3, BadWhy::Form(1)))
        )
    );
}
