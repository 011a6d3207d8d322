ghost use Rattle.std.specs.Prelude.{◌≡◌, ℕ, Bool, ◌<◌, ◌≤◌};
ghost use Rattle.base_fixed_point.specs.Profile.{InProfile};

/// A fixed-point type, `fixdt(signed,bits,frac)`: its stored integers have `bits` bits, with a sign or not, and stand for
/// themselves times 2^-frac (Simulink reference, `fixdt`).
#[derive(Clone, Copy, Debug, PartialEq, Eq, Drop)]
pub struct FixType {
    /// Whether stored integers have a sign.
    pub signed: bool,
    /// How many bits they have, the sign among them.
    pub bits: u8,
    /// How many of these are after the point.
    pub frac: u8,
    pub ghost in_profile: { InProfile signed bits frac },
}

impl FixType {
    ghost use Rattle.std.specs.Prelude.{◌≡◌, Option, None, Some, MatchOption, false, true};
    ghost use Rattle.base_fixed_point.specs.Profile.{in_profile};

    /// The type with these numbers, if there is one: 1 to 32 bits, with a sign 2 to 32, and 0 to 31 fraction bits.
    pub fn new(signed: bool, bits: u8, frac: u8) -> Option<FixType>
        ensures { MatchOption result (in_profile signed bits frac ≡ false) (λ t.
            (in_profile signed bits frac ≡ true) × (t.signed ≡ signed) × (t.bits ≡ bits)
            × (t.frac ≡ frac)) }
    {
        let least = if signed { 2 } else { 1 };
        if least <= bits && bits <= 32 && frac <= 31 {
            Some(FixType { signed, bits, frac })
        } else {
            None
        }
    }
}

/// How an exact number is rounded to a whole one (Simulink reference, integer rounding modes): up, to the nearest with
/// ties to even, down, to the nearest with ties up, to the nearest with ties away from 0, and toward 0.
#[derive(Clone, Copy, Debug, PartialEq, Eq, Drop)]
pub enum Round {
    /// To the least whole number not below.
    Ceiling,
    /// To the nearest, ties to even.
    Convergent,
    /// To the greatest whole number not above.
    Floor,
    /// To the nearest, ties up.
    Nearest,
    /// To the nearest, ties away from 0.
    Round,
    /// Toward 0.
    Zero,
}

/// How a whole number is brought into the range of a type: to the nearer end, or modulo 2^bits.
#[derive(Clone, Copy, Debug, PartialEq, Eq, Drop)]
pub enum Over {
    /// To the nearer end of the range.
    Saturate,
    /// Modulo 2^bits.
    Wrap,
}

/// One case of a conversion: its modes, and whether the type that it leads to has a sign.
#[derive(Clone, Copy, Debug, PartialEq, Eq, Drop)]
pub struct Case {
    /// The rounding mode.
    pub round: Round,
    /// What becomes of a number out of range.
    pub over: Over,
    /// Whether the type has a sign.
    pub signed: bool,
}

/// A table of cases of conversions.
#[derive(Debug, Drop)]
pub struct CaseTable<const N: usize> {
    /// The cases, in order.
    pub cases: [Case; N],
}

/// What a type's text means: the block's own rule, boolean, no type by back propagation, or a type.
#[derive(Clone, Copy, Debug, PartialEq, Eq, Drop)]
pub enum TypeText {
    /// By the rule of the block.
    Inherit,
    /// Boolean.
    Logical,
    /// By back propagation, which gives none here.
    Back,
    /// This type.
    Fixed(FixType),
}

/// Why a text is no type: by its form, as a floating-point type, or beyond the limits.
#[derive(Clone, Copy, Debug, PartialEq, Eq, Drop)]
pub enum TypeFault {
    /// It is no type.
    Form,
    /// It is `double`, `single` or `half`.
    Float,
    /// A `fixdt` whose numbers are beyond the limits.
    Range,
}
