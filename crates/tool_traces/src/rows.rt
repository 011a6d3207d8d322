ghost use Rattle.std.specs.Prelude.{◌≡◌, ◌≤◌, length, Ok, Err, MatchResult};
ghost use Rattle.tool_traces.specs.Fields as field;
ghost use Rattle.tool_traces.specs.Rows as row;
ghost use Rattle.tool_traces.specs.Rows.{row_of};

use crate::fields::{field_count, field_number, next_field};
use crate::lines::LONGEST_LINE;
use base_fixed_point::{FixType, greatest, least};

/// Why a line of a trace is no row.
#[derive(Clone, Copy, Debug, PartialEq, Eq, Drop)]
pub enum BadWhy {
    /// It has more than 4,096 bytes without its end.
    Long,
    /// As many lines as a trace may have are before it.
    Many,
    /// It has this number of fields, which isn't that of the inputs.
    Count(u32),
    /// The field with this number, from 1, is no number of 1 to 18 digits.
    Form(u32),
    /// The number of this field isn't in the type of its input.
    Range(u32),
}

/// A line that is no row, by its number from 1, and why.
#[derive(Clone, Copy, Debug, PartialEq, Eq, Drop)]
pub struct BadLine {
    /// The number of the line, from 1.
    pub line: u32,
    /// Why it is no row.
    pub why: BadWhy,
}

/// Reads the row that a line without its end writes: one field for each type, a stored integer of that type. Spaces
/// and tabs part the fields, and may be at both ends.
///
/// Fails where the line is no row, with the first cause in this order: its length, the number of its fields, and the
/// leftmost bad field. `into` may hold anything then.
pub fn read_row(text: &[u8], types: &[FixType], into: &mut [i64]) -> Result<(), BadWhy>
    requires { length into.old ≡ length types.now }
    ensures row { MatchResult result (λ _. row_of types.now text.now ≡ Ok into.new)
        (λ why. row_of types.now text.now ≡ Err why) }
    ensures room { length into.new ≡ length into.old }
{
    if text.len() > LONGEST_LINE {
        return Err(BadWhy::Long);
    }
    let count = field_count(text);
    if count as usize != types.len() {
        return Err(BadWhy::Count(count));
    }
    read_values(text, types, into)
}

// The values of as many fields as there are types.
fn read_values(text: &[u8], types: &[FixType], into: &mut [i64]) -> Result<(), BadWhy>
    requires room { length into.old ≡ length types.now }
    requires count { length (field.fields text.now) ≡ length types.now }
    requires short { length text.now ≤ 4096 }
    ensures values { MatchResult result (λ _. row.values_from 1 types.now (field.fields text.now)
        ≡ Ok into.new)
        (λ why. row.values_from 1 types.now (field.fields text.now) ≡ Err why) }
    ensures kept { length into.new ≡ length into.old }
{
    let mut rest = text;
    let mut field = 0;
    while let Some((number, behind)) = next_field(rest) {
        into[field] = checked_value(field as u32 + 1, types[field], number)?;
        field += 1;
        rest = behind;
    }
    Ok(())
}

// The number that the field with this number writes, in its type.
fn checked_value(number: u32, t: FixType, text: &[u8]) -> Result<i64, BadWhy>
    ensures { result ≡ row.checked_value number t (field.field_number text.now) }
{
    match field_number(text) {
        None => Err(BadWhy::Form(number)),
        Some(value) if least(t) <= value && value <= greatest(t) => Ok(value),
        Some(_) => Err(BadWhy::Range(number)),
    }
}
