ghost use Rattle.std.specs.Prelude.{◌≡◌};
ghost use Rattle.mdl_params.specs.BlockTypes.{beside};
ghost use Rattle.mdl_blocks.specs.Words as words;
ghost use Rattle.mdl_blocks.specs.Blocks as blocks;

use base_core::{Compare, Edge};
use base_fixed_point::{Over, Round};
use diagram_blocks::{Criterion, Logic};

/// How a result is rounded, by its word.
pub(crate) fn round_named(text: &[u8]) -> Option<Round>
    ensures { result ≡ beside text.now words.rounds }
{
    if text == b"Ceiling".as_slice() {
        Some(Round::Ceiling)
    } else if text == b"Convergent".as_slice() {
        Some(Round::Convergent)
    } else if text == b"Floor".as_slice() {
        Some(Round::Floor)
    } else if text == b"Nearest".as_slice() {
        Some(Round::Nearest)
    } else if text == b"Round".as_slice() {
        Some(Round::Round)
    } else if text == b"Zero".as_slice() {
        Some(Round::Zero)
    } else {
        None
    }
}

/// What becomes of a result that doesn't fit, by its word.
pub(crate) fn over_named(text: &[u8]) -> Option<Over>
    ensures { result ≡ beside text.now words.overs }
{
    if text == b"on".as_slice() {
        Some(Over::Saturate)
    } else if text == b"off".as_slice() {
        Some(Over::Wrap)
    } else {
        None
    }
}

/// The change of a wire that triggers, by its word.
pub(crate) fn edge_named(text: &[u8]) -> Option<Edge>
    ensures { result ≡ beside text.now words.edges }
{
    if text == b"rising".as_slice() {
        Some(Edge::Rising)
    } else if text == b"falling".as_slice() {
        Some(Edge::Falling)
    } else if text == b"either".as_slice() {
        Some(Edge::Either)
    } else {
        None
    }
}

/// Whether states or outputs are reset, by its word.
pub(crate) fn reset_named(text: &[u8]) -> Option<bool>
    ensures { result ≡ beside text.now words.resets }
{
    if text == b"held".as_slice() {
        Some(false)
    } else if text == b"reset".as_slice() {
        Some(true)
    } else {
        None
    }
}

/// Whether the time of a rate transition's output is inherited, by its word.
pub(crate) fn inheritance_named(text: &[u8]) -> Option<bool>
    ensures { result ≡ beside text.now words.inheritances }
{
    if text == b"Specify".as_slice() {
        Some(false)
    } else if text == b"Inherit".as_slice() {
        Some(true)
    } else {
        None
    }
}

/// How two inputs are compared, by its sign.
pub(crate) fn comparison_named(text: &[u8]) -> Option<Compare>
    ensures { result ≡ beside text.now words.comparisons }
{
    if text == b"==".as_slice() {
        Some(Compare::Eq)
    } else if text == b"~=".as_slice() {
        Some(Compare::Ne)
    } else if text == b"<".as_slice() {
        Some(Compare::Lt)
    } else if text == b"<=".as_slice() {
        Some(Compare::Le)
    } else if text == b">=".as_slice() {
        Some(Compare::Ge)
    } else if text == b">".as_slice() {
        Some(Compare::Gt)
    } else {
        None
    }
}

/// The operator over truth values of this name.
pub(crate) fn logic_named(text: &[u8]) -> Option<Logic>
    ensures { result ≡ beside text.now words.logics }
{
    if text == b"AND".as_slice() {
        Some(Logic::And)
    } else if text == b"OR".as_slice() {
        Some(Logic::Or)
    } else if text == b"NAND".as_slice() {
        Some(Logic::Nand)
    } else if text == b"NOR".as_slice() {
        Some(Logic::Nor)
    } else if text == b"XOR".as_slice() {
        Some(Logic::Xor)
    } else if text == b"NXOR".as_slice() {
        Some(Logic::Nxor)
    } else if text == b"NOT".as_slice() {
        Some(Logic::Not)
    } else {
        None
    }
}

/// When a switch passes its first input, by its text.
pub(crate) fn criterion_named(text: &[u8]) -> Option<Criterion>
    ensures { result ≡ beside text.now words.criteria }
{
    if text == b"u2 >= Threshold".as_slice() {
        Some(Criterion::Ge)
    } else if text == b"u2 > Threshold".as_slice() {
        Some(Criterion::Gt)
    } else if text == b"u2 ~= 0".as_slice() {
        Some(Criterion::NotZero)
    } else {
        None
    }
}

/// Whether a conversion keeps the real value, by its text.
pub(crate) fn keeps_value(text: &[u8]) -> bool
    ensures { result ≡ blocks.keeps_value text.now }
{
    text.starts_with(b"Real World Value".as_slice())
}
