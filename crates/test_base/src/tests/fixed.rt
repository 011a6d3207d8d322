mod conversions;

use super::{INT8, INT32};
use base_core::NumFault;
use base_fixed_point::{
    Case, FixType, Over, Round, TypeFault, TypeText, all_cases, convert, gain_constant, greatest,
    least, quantize,
};
use base_numerals::read_decimal;
use conversions::CONVERSIONS;
use mdl_type_texts::read_type;
use std::test::Fail;

// Whether the type that a text is has a sign, its bits and its fraction bits.
fn fixed_of(text: &str) -> Option<(bool, u8, u8)> {
    match read_type(text.as_bytes()) {
        Ok(TypeText::Fixed(t)) => Some((t.signed, t.bits, t.frac)),
        _ => None,
    }
}

/// Texts of types, and whether each has a sign, its bits and its fraction bits.
const FIXED: &[(&str, (bool, u8, u8))] = &[
    ("int8", (true, 8, 0)),
    (" uint32\t", (false, 32, 0)),
    ("boolean", (false, 1, 0)),
    ("fixdt(1,16,4)", (true, 16, 4)),
    ("fixdt( true , 08,0 )", (true, 8, 0)),
    ("fixdt(0,1,31)", (false, 1, 31)),
];

#[test]
fn types_are_read(rt: HostRuntime) {
    for &(text, parts) in FIXED {
        assert_eq!(rt; fixed_of(text), Some(parts), "{text}");
    }
    // rules and other texts
    for &(text, meaning) in &[
        ("Inherit: auto", Ok(TypeText::Inherit)),
        (
            "Inherit: Logical (see Configuration)",
            Ok(TypeText::Logical),
        ),
        ("Inherit: Inherit via back propagation", Ok(TypeText::Back)),
        ("Inherit: Logical back propagation", Ok(TypeText::Logical)),
        ("half", Err(TypeFault::Float)),
        ("fixdt(0,33,0)", Err(TypeFault::Range)),
        ("fixdt(1,1,0)", Err(TypeFault::Range)),
        ("fixdt(0,8,32)", Err(TypeFault::Range)),
        (
            "fixdt(0,100000000000000000000000000000000000000,0)",
            Err(TypeFault::Range),
        ),
        ("fixdt(1,16,-4)", Err(TypeFault::Form)),
        ("fixdt(1,16)", Err(TypeFault::Form)),
        ("fixdt(1,16,4,0)", Err(TypeFault::Form)),
        ("fixdt(2,16,4)", Err(TypeFault::Form)),
        ("fixdt(1,,4)", Err(TypeFault::Form)),
        ("fixdt(", Err(TypeFault::Form)),
        ("inherit: auto", Err(TypeFault::Form)),
        ("int64", Err(TypeFault::Form)),
        ("", Err(TypeFault::Form)),
    ] {
        assert_eq!(rt; read_type(text.as_bytes()), meaning, "{text}");
    }
}

fn round_of(name: &str) -> Option<Round> {
    match name {
        "Ceiling" => Some(Round::Ceiling),
        "Convergent" => Some(Round::Convergent),
        "Floor" => Some(Round::Floor),
        "Nearest" => Some(Round::Nearest),
        "Round" => Some(Round::Round),
        "Zero" => Some(Round::Zero),
        _ => None,
    }
}

fn over_of(name: &str) -> Option<Over> {
    match name {
        "Saturate" => Some(Over::Saturate),
        "Wrap" => Some(Over::Wrap),
        _ => None,
    }
}

/// A number with its fraction bits, the type and the modes that it is converted by, and the result.
#[derive(Clone, Copy)]
struct Conversion {
    number: i128,
    frac: u8,
    to: FixType,
    round: Round,
    over: Over,
    result: i64,
}

/// The conversion that a line describes.
fn conversion_of(line: &str) -> Option<Conversion> {
    let mut fields = line.split(' ');
    let number = fields.next()?.parse::<i128>().ok()?;
    let frac = fields.next()?.parse::<u8>().ok()?;
    let TypeText::Fixed(to) = read_type(fields.next()?.as_bytes()).ok()? else {
        return None;
    };
    let round = round_of(fields.next()?)?;
    let over = over_of(fields.next()?)?;
    let result = fields.next()?.parse::<i64>().ok()?;
    Some(Conversion {
        number,
        frac,
        to,
        round,
        over,
        result,
    })
}

// What the conversion of a line gives, and what it is to give.
fn converted(line: &str) -> Option<(i64, i64)> {
    let c = conversion_of(line)?;
    if c.number.unsigned_abs() <= 1 << 62 && c.frac <= 93 {
        Some((convert(c.number, c.frac, c.to, c.round, c.over), c.result))
    } else {
        None
    }
}

#[test]
fn numbers_are_converted(rt: HostRuntime) -> Result<(), Fail> {
    for line in CONVERSIONS.lines() {
        let (result, want) = converted(line).ok_or(line)?;
        assert_eq!(rt; result, want, "{line}");
    }
    // ties and ends go by the modes
    for &(round, tie, wrapped) in &[
        (Round::Floor, -3, 127),
        (Round::Ceiling, -2, -128),
        (Round::Zero, -2, 127),
        (Round::Nearest, -2, -128),
        (Round::Round, -3, -128),
        (Round::Convergent, -2, -128),
    ] {
        // -2.5, and 127.5
        let low = convert(-40, 4, INT8, round, Over::Saturate);
        let high = convert(2040, 4, INT8, round, Over::Saturate);
        let past = convert(2040, 4, INT8, round, Over::Wrap);
        assert_eq!(rt; (low, high, past), (tie, 127, wrapped));
    }
    Ok(())
}

// The constant that a gain becomes: its stored integer and its fraction bits.
fn gain_of(text: &str) -> Result<(i64, u8), NumFault> {
    gain_constant(&read_decimal(text.as_bytes())?)
}

// A number times the gain 0.1, in 32 bits, rounded down.
fn tenth_of(number: i64) -> Option<i64> {
    let (gain, frac) = gain_of("0.1").ok()?;
    let product = i128::from(number).checked_mul(i128::from(gain))?;
    if product.unsigned_abs() <= 1 << 62 && frac <= 93 {
        Some(convert(product, frac, INT32, Round::Floor, Over::Saturate))
    } else {
        None
    }
}

#[test]
fn gains_find_their_types(rt: HostRuntime) {
    for &(text, constant) in &[
        ("0.1", Ok((214_748_365, 31))),
        ("2.5", Ok((5, 1))),
        ("0", Ok((0, 0))),
        ("1", Ok((1, 0))),
        ("-0.75", Ok((-3, 2))),
        ("1e-18", Ok((0, 0))),
        ("1073741823.5", Ok((2_147_483_647, 1))),
        ("2147483647.4", Ok((2_147_483_647, 0))),
        ("-2147483648", Ok((-2_147_483_648, 0))),
        ("-2147483648.5", Ok((-2_147_483_648, 0))),
        // beyond 32 bits there is none
        ("2147483647.5", Err(NumFault::Range)),
        ("2147483648", Err(NumFault::Range)),
        ("-2147483649", Err(NumFault::Range)),
        ("1e18", Err(NumFault::Range)),
        ("-1e18", Err(NumFault::Range)),
    ] {
        assert_eq!(rt; gain_of(text), constant, "{text}");
    }
    // a small gain is exact
    for &(input, output) in &[(2_147_483_647, 214_748_364), (-1, -1), (10, 1)] {
        assert_eq!(rt; tenth_of(input), Some(output));
    }
}

// The constant that a text becomes in the type with this sign, these bits and these fraction bits.
fn quantized(text: &str, signed: bool, bits: u8, frac: u8) -> Option<i64> {
    let to = FixType::new(signed, bits, frac)?;
    let number = read_decimal(text.as_bytes()).ok()?;
    Some(quantize(&number, to))
}

#[test]
fn constants_are_quantized(rt: HostRuntime) {
    for &(text, signed, bits, frac, want) in &[
        ("0.5", true, 8, 4, 8),
        ("2.5", true, 8, 0, 3),
        ("-2.5", true, 8, 0, -2),
        ("1e18", true, 8, 31, 127),
        ("-1e18", true, 8, 31, -128),
        ("-1", false, 8, 0, 0),
        ("1/3", false, 32, 31, 715_827_883),
        ("999999999999999999e-18", true, 32, 31, 2_147_483_647),
        ("true", false, 1, 0, 1),
    ] {
        assert_eq!(rt; quantized(text, signed, bits, frac), Some(want), "{text}");
    }
}

// The ends of the type with this sign and these bits.
fn ends_of(signed: bool, bits: u8) -> Option<(i64, i64)> {
    let t = FixType::new(signed, bits, 0)?;
    Some((least(t), greatest(t)))
}

#[test]
fn ranges_have_their_ends(rt: HostRuntime) {
    for &(signed, bits, low, high) in &[
        (true, 8, -128, 127),
        (true, 32, -2_147_483_648, 2_147_483_647),
        (true, 2, -2, 1),
        (false, 32, 0, 4_294_967_295),
        (false, 1, 0, 1),
    ] {
        assert_eq!(rt; ends_of(signed, bits), Some((low, high)));
    }
}

#[test]
fn cases_stand_by_rounding_then_overflow_then_sign(rt: HostRuntime) {
    let table = all_cases();
    for &(at, round, over, signed) in &[
        (0, Round::Ceiling, Over::Saturate, false),
        (1, Round::Ceiling, Over::Saturate, true),
        (2, Round::Ceiling, Over::Wrap, false),
        (4, Round::Convergent, Over::Saturate, false),
        (23, Round::Zero, Over::Wrap, true),
    ] {
        assert_eq!(rt;
            table.cases.get(at),
            Some(&Case {
                round,
                over,
                signed
            })
        );
    }
}
