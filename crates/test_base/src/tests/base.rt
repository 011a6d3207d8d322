use base_core::{Memory, NumFault, ParamName, Place, Port, Text, gcd, lcm, push_number};
use base_numerals::{frac_of, read_decimal};
use base_refusals::{Refusal, refusal_text};
use std::alloc::Global;
use std::test::Fail;

// Numbers, each before a blank.
fn appended(alloc: Global, numbers: &[i64]) -> Result<Vec<u8>, Memory> {
    let mut out = Vec::new(alloc);
    for &n in numbers {
        push_number(alloc, &mut out, n)?;
        out.push(b' ')?;
    }
    Ok(out)
}

#[test]
fn numbers_are_appended_and_texts_copied(rt: HostRuntime) -> Result<(), Fail> {
    let numbers = appended(rt.alloc(), &[0, -7, 2_147_483_647, i64::MIN])?;
    let text = Text::copy_of(rt.alloc(), b"In 1")?;
    assert_eq!(rt;
        (numbers.as_slice(), text.bytes()),
        (
            b"0 -7 2147483647 -9223372036854775808 ".as_slice(),
            b"In 1".as_slice()
        )
    );
    Ok(())
}

// Prints the line that reports a refusal.
fn push_line(alloc: Global, lines: &mut Vec<u8>, refusal: Refusal) -> Result<(), Memory> {
    let line = refusal_text(alloc, &refusal)?;
    Ok(lines.extend_from_slice(&line)?)
}

// The lines that report some refusals.
fn lines(alloc: Global) -> Result<Vec<u8>, Memory> {
    let name = ParamName::SampleTime;
    let port = Port::Number(2);
    let rows = [Place { row: 1, line: 9 }, Place { row: 2, line: 14 }].to_vec(alloc)?;
    let mut lines = Vec::new(alloc);
    push_line(alloc, &mut lines, Refusal::Loop { rows })?;
    push_line(alloc, &mut lines, Refusal::TooLong)?;
    push_line(alloc, &mut lines, Refusal::Unsupported { line: 11 })?;
    push_line(alloc, &mut lines, Refusal::Parameter { line: 5, name })?;
    push_line(alloc, &mut lines, Refusal::Unconnected { line: 7, port })?;
    Ok(lines)
}

#[test]
fn refusals_are_told(rt: HostRuntime) -> Result<(), Fail> {
    let lines = lines(rt.alloc())?;
    assert_eq!(rt;
        str::from_utf8(&lines),
        Ok(
            "refused F23 Loop 9 14\n\
            refused F1 TooLong\n\
            refused F7 Unsupported line 11\n\
            refused F8 Parameter line 5 SampleTime\n\
            refused F13 Unconnected line 7 port 2\n"
        )
    );
    Ok(())
}

// Texts, with the parts of the fractions that they are, or why they are no numbers.
const NUMBERS: &[(&str, Result<(i128, u128), NumFault>)] = &[
    ("0.1", Ok((1, 10))),
    ("1/50", Ok((1, 50))),
    (" 2.5\t", Ok((5, 2))),
    ("-7", Ok((-7, 1))),
    ("+1.5e2", Ok((150, 1))),
    ("5.", Ok((5, 1))),
    (".5", Ok((1, 2))),
    ("[5e-3]", Ok((1, 200))),
    ("true", Ok((1, 1))),
    ("[false]", Ok((0, 1))),
    ("-0", Ok((0, 1))),
    ("-4/6", Ok((-2, 3))),
    ("007/014", Ok((1, 2))),
    ("1E+3", Ok((1000, 1))),
    ("000999999999999999999", Ok((999_999_999_999_999_999, 1))),
    ("1e18", Ok((1_000_000_000_000_000_000, 1))),
    (
        "0.0000000000000000001e1",
        Ok((1, 1_000_000_000_000_000_000)),
    ),
    ("1e000000000000000000001", Ok((10, 1))),
    ("0e999999999999999999", Ok((0, 1))),
    ("0.00000000000000000000000", Ok((0, 1))),
    ("", Err(NumFault::Form)),
    (".", Err(NumFault::Form)),
    ("-", Err(NumFault::Form)),
    ("+-5", Err(NumFault::Form)),
    ("1e", Err(NumFault::Form)),
    ("1e+", Err(NumFault::Form)),
    ("e5", Err(NumFault::Form)),
    ("1/0", Err(NumFault::Form)),
    ("1/-2", Err(NumFault::Form)),
    ("1.5/2", Err(NumFault::Form)),
    ("1 2", Err(NumFault::Form)),
    ("[ 5]", Err(NumFault::Form)),
    ("[[5]]", Err(NumFault::Form)),
    ("[5", Err(NumFault::Form)),
    ("True", Err(NumFault::Form)),
    ("1000000000000000000", Err(NumFault::Range)),
    ("1e19", Err(NumFault::Range)),
    ("1.5e-18", Err(NumFault::Range)),
    ("1/1000000000000000000", Err(NumFault::Range)),
    ("0e0000000000000000000", Err(NumFault::Range)),
];

// The parts of the fraction that a text is.
fn parts_of(text: &str) -> Result<(i128, u128), NumFault> {
    let read = read_decimal(text.as_bytes())?;
    Ok((read.num, read.den))
}

// Texts, with the parts of their fractions, where these are bounded.
const BOUNDED: &[(&str, Result<(u64, u64), NumFault>)] = &[
    ("0", Ok((0, 1))),
    ("1e9", Ok((1_000_000_000, 1))),
    ("1e-9", Ok((1, 1_000_000_000))),
    ("-1/2", Err(NumFault::Range)),
    ("1000000001", Err(NumFault::Range)),
    ("1/1000000001", Err(NumFault::Range)),
];

// The parts of the fraction that a text is, where these are bounded.
fn bounded_parts_of(text: &str) -> Result<(u64, u64), NumFault> {
    let frac = frac_of(&read_decimal(text.as_bytes())?)?;
    Ok((frac.num, frac.den))
}

#[test]
fn numbers_are_read(rt: HostRuntime) {
    for &(text, parts) in NUMBERS {
        assert_eq!(rt; parts_of(text), parts, "{text}");
    }
    for &(text, parts) in BOUNDED {
        assert_eq!(rt; bounded_parts_of(text), parts, "{text}");
    }
}

#[test]
fn divisors_and_multiples_are_found(rt: HostRuntime) {
    for &(a, b, divisor, multiple) in &[
        (1, 1, 1, 1),
        (12, 18, 6, 36),
        (35, 64, 1, 2240),
        (4_294_967_295, 4_294_967_294, 1, 18_446_744_060_824_649_730),
    ] {
        assert_eq!(rt; (gcd(a, b), lcm(a, b)), (divisor, multiple));
    }
    assert_eq!(rt; (gcd(0, 7), gcd(7, 0)), (7, 7));
}
