ghost use Rattle.std.specs.Prelude.{◌≡◌, ◌≤◌, length, Ok, Err, MatchResult};
ghost use Rattle.tool_traces.specs.Fields as field;
ghost use Rattle.tool_traces.specs.Fields.{fields};
ghost use Rattle.tool_plain_rows.specs.PlainRows as row;
ghost use Rattle.tool_plain_rows.specs.PlainRows.{plain_row_of};

use tool_traces::{BadWhy, LONGEST_LINE, field_number, next_field};

/// The least number of a field.
const LEAST: i64 = -2_147_483_648;

/// The greatest number of a field.
const GREATEST: i64 = 4_294_967_295;

/// Reads the row that a line without its end writes: one field for each item of `into`, a number from -2147483648 to
/// 4294967295. Spaces and tabs part the fields, and may be at both ends.
///
/// Fails where the line is no row, with the first cause in this order: its length, the number of its fields, and the
/// leftmost bad field. `into` may hold anything then.
pub fn read_plain_row(text: &[u8], into: &mut [i64]) -> Result<(), BadWhy>
    ensures row { MatchResult result (λ _. plain_row_of (length into.old) text.now ≡ Ok into.new)
        (λ why. plain_row_of (length into.old) text.now ≡ Err why) }
    ensures room { length into.new ≡ length into.old }
{
    if text.len() > LONGEST_LINE {
        return Err(BadWhy::Long);
    }
    let count = field_count(text);
    if count as usize != into.len() {
        return Err(BadWhy::Count(count));
    }
    read_values(text, into)
}

// How many fields the text has.
fn field_count(text: &[u8]) -> u32
    requires { length text.now ≤ 4096 }
    ensures { result ≡ length (fields text.now) }
{
    let mut count = 0;
    let mut rest = text;
    while let Some((_, after)) = next_field(rest) {
        count += 1;
        rest = after;
    }
    count
}

// The values of as many fields as there is room for.
fn read_values(text: &[u8], into: &mut [i64]) -> Result<(), BadWhy>
    requires count { length (field.fields text.now) ≡ length into.old }
    requires short { length text.now ≤ 4096 }
    ensures values { MatchResult result (λ _. row.plain_values_from 1 (field.fields text.now) ≡ Ok into.new)
        (λ why. row.plain_values_from 1 (field.fields text.now) ≡ Err why) }
    ensures kept { length into.new ≡ length into.old }
{
    let mut rest = text;
    let mut field = 0;
    while let Some((number, after)) = next_field(rest) {
        into[field] = checked_value(field as u32 + 1, number)?;
        field += 1;
        rest = after;
    }
    Ok(())
}

// The number that the field with this number writes, in its range.
fn checked_value(number: u32, text: &[u8]) -> Result<i64, BadWhy>
    ensures { result ≡ row.plain_value number (field.field_number text.now) }
{
    match field_number(text) {
        None => Err(BadWhy::Form(number)),
        Some(value) if LEAST <= value && value <= GREATEST => Ok(value),
        Some(_) => Err(BadWhy::Range(number)),
    }
}
