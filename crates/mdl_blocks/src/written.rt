ghost use Rattle.std.specs.Prelude.{◌≡◌, option_map};
ghost use Rattle.mdl_blocks.specs.Held.{type_said, time_said, constant_said};
ghost use Rattle.mdl_blocks.specs.Meanings as meaning;

use base_core::{Decimal, TimeText, trim};
use base_fixed_point::TypeText;
use mdl_params::{ParamFault, number, sample_time, type_of};

/// What is written for a type.
#[derive(Clone, Copy, Debug, PartialEq, Eq, Drop)]
pub enum WrittenType {
    /// A type that is read.
    Known(TypeText),
    /// A floating-point type.
    Float,
}

/// What is written for a sample time.
#[derive(Clone, Copy, Debug, PartialEq, Eq, Drop)]
pub enum WrittenTime {
    /// A time that is read.
    Known(TimeText),
    /// A period 0.
    Zero,
}

/// What is written for a constant.
#[derive(Clone, Copy, Debug, PartialEq, Eq, Drop)]
pub struct WrittenConstant {
    /// Its number.
    pub value: Decimal,
    /// Whether it is written as a truth value, `true` or `false`.
    pub is_truth: bool,
}

/// What a text writes for a type, if it is one.
pub(crate) fn type_in(text: &[u8]) -> Option<WrittenType>
    ensures { option_map type_said result ≡ meaning.type_in text.now }
{
    match type_of(text) {
        Ok(meaning) => Some(WrittenType::Known(meaning)),
        Err(ParamFault::Float) => Some(WrittenType::Float),
        Err(ParamFault::Parameter | ParamFault::Continuous) => None,
    }
}

/// The same of a type that has no bits after the point.
pub(crate) fn whole_type_in(text: &[u8]) -> Option<WrittenType>
    ensures { option_map type_said result ≡ meaning.whole_type_in text.now }
{
    match type_in(text)? {
        WrittenType::Known(TypeText::Fixed(fixed)) if fixed.frac != 0 => None,
        written => Some(written),
    }
}

/// What a text writes for a sample time, which may be a constant one.
pub(crate) fn any_time_in(text: &[u8]) -> Option<WrittenTime>
    ensures { option_map time_said result ≡ meaning.any_time_in text.now }
{
    match sample_time(text) {
        Ok(meaning) => Some(WrittenTime::Known(meaning)),
        Err(ParamFault::Continuous) => Some(WrittenTime::Zero),
        Err(ParamFault::Parameter | ParamFault::Float) => None,
    }
}

/// The same of a time that may not be constant.
pub(crate) fn time_in(text: &[u8]) -> Option<WrittenTime>
    ensures { option_map time_said result ≡ meaning.time_in text.now }
{
    match any_time_in(text)? {
        WrittenTime::Known(TimeText::Constant) => None,
        written => Some(written),
    }
}

/// The time of a rate transition's output, by whether it is inherited; a period 0 counts all the same.
pub(crate) fn out_time(inherits: bool, written: WrittenTime) -> WrittenTime
    ensures { time_said result ≡ meaning.out_time inherits (time_said written) }
{
    match written {
        WrittenTime::Known(_) if inherits => WrittenTime::Known(TimeText::Inherit),
        written => written,
    }
}

/// Whether a text is a truth value.
fn is_truth(text: &[u8]) -> bool
    ensures { result ≡ meaning.is_truth text.now }
{
    trim(text) == b"true".as_slice() || trim(text) == b"false".as_slice()
}

/// What a text writes for a constant, if it is a number.
pub(crate) fn constant_in(text: &[u8]) -> Option<WrittenConstant>
    ensures { option_map constant_said result ≡ meaning.constant_in text.now }
{
    let value = number(text).ok()?;
    Some(WrittenConstant {
        value,
        is_truth: is_truth(text),
    })
}
