// The call that a line asks for.
ghost use Rattle.std.specs.Prelude.{◌≡◌, ◌≤◌, ◌<◌, ◌^◌, ◌≢◌, length, All, Ok, Err, MatchResult, MatchOption, IfOk, IfSome};
ghost use Rattle.tool_traces.specs.Fields.{fields};
ghost use Rattle.tool_scripts.specs.Numbers.{numbers_of, HasRead};
ghost use Rattle.tool_scripts.specs.Calls as call;
ghost use Rattle.tool_scripts.specs.Calls.{call_of_line, read_as, out_of_numbers, update_of_numbers};

use crate::numbers::read_numbers;
use tool_traces::{LONGEST_LINE, field_number, next_field};

/// Why a line of a script is no call.
#[derive(Clone, Copy, Debug, PartialEq, Eq, Drop)]
pub enum ScriptWhy {
    /// It has more than 4,096 bytes without its end.
    Long,
    /// As many lines as a script may have are before it.
    Many,
    /// It doesn't begin with `update`, or with `out` and a number, or a field after that word is no number of 1 to 18
    /// digits.
    Form,
    /// This number is no function's.
    NoFunction(i64),
    /// It has this number of values, which isn't that of the inputs.
    Count(u32),
}

/// What a line of a script asks for.
#[derive(Clone, Copy, Debug, PartialEq, Eq, Drop)]
pub enum ScriptLine {
    /// A call of the output function with this number, from 1.
    Out { function: u32 },
    /// A call of the update function.
    Update,
}

/// A line of a script that was read.
#[derive(Clone, Copy, Debug, PartialEq, Eq, Drop)]
pub struct ReadCall {
    /// Which call it asks for.
    pub line: ScriptLine,
    /// How many values it has.
    pub count: usize,
}

/// Reads the call that a line without its end asks for: `out`, a function's number and the values of its inputs, or
/// `update` and the values of all inputs. Spaces and tabs part the fields, and may be at both ends.
///
/// `counts` has for each function, from number 1 on, how many inputs it takes, its controls among them. `into` has one
/// item for each input of the system, its controls among them, and gets the values in its first items.
///
/// Fails where the line is no call, with the first cause in this order: its length, the form of its word or of a number,
/// the function's number, and the number of its values. `into` may hold anything then.
pub fn read_call(text: &[u8], counts: &[u32], into: &mut [i64]) -> Result<ReadCall, ScriptWhy>
    requires few { length counts.now < 2 ^ 32 }
    requires most { All (λ count. count ≤ length into.old) counts.now }
    ensures call { MatchResult result
        (λ read. call_of_line counts.now (length into.old) text.now ≡ Ok (read_as read into.new))
        (λ why. call_of_line counts.now (length into.old) text.now ≡ Err why) }
    ensures within { IfOk result (λ read. read.count ≤ length into.old) }
    ensures room { length into.new ≡ length into.old }
{
    if text.len() > LONGEST_LINE {
        return Err(ScriptWhy::Long);
    }
    let Some((word, rest)) = next_field(text) else {
        return Err(ScriptWhy::Form);
    };
    if word == b"out".as_slice() {
        read_out(rest, counts, into)
    } else if word == b"update".as_slice() {
        read_update(rest, into)
    } else {
        Err(ScriptWhy::Form)
    }
}

// The call of an output function, by what is after its word.
fn read_out(text: &[u8], counts: &[u32], into: &mut [i64]) -> Result<ReadCall, ScriptWhy>
    requires few { length counts.now < 2 ^ 32 }
    requires most { All (λ count. count ≤ length into.old) counts.now }
    requires short { length text.now ≤ 4096 }
    ensures call { MatchResult result
        (λ read. out_of_numbers counts.now (numbers_of (fields text.now))
        ≡ Ok (read_as read into.new))
        (λ why. out_of_numbers counts.now (numbers_of (fields text.now)) ≡ Err why) }
    ensures within { IfOk result (λ read. read.count ≤ length into.old) }
    ensures room { length into.new ≡ length into.old }
{
    let Some((field, rest)) = next_field(text) else {
        return Err(ScriptWhy::Form);
    };
    let Some(number) = field_number(field) else {
        return Err(ScriptWhy::Form);
    };
    let Some(found) = read_numbers(rest, into) else {
        return Err(ScriptWhy::Form);
    };
    let Some(function) = function_numbered(number, counts.len()) else {
        return Err(ScriptWhy::NoFunction(number));
    };
    counted(
        ScriptLine::Out { function },
        counts[function as usize - 1] as usize,
        found,
    )
}

// The call of the update function, by what is after its word.
fn read_update(text: &[u8], into: &mut [i64]) -> Result<ReadCall, ScriptWhy>
    requires short { length text.now ≤ 4096 }
    ensures call { MatchResult result
        (λ read. update_of_numbers (length into.old) (numbers_of (fields text.now))
        ≡ Ok (read_as read into.new))
        (λ why. update_of_numbers (length into.old) (numbers_of (fields text.now)) ≡ Err why) }
    ensures within { IfOk result (λ read. read.count ≤ length into.old) }
    ensures room { length into.new ≡ length into.old }
{
    let Some(found) = read_numbers(text, into) else {
        return Err(ScriptWhy::Form);
    };
    counted(ScriptLine::Update, into.len(), found)
}

// The function of this number, among so many.
fn function_numbered(number: i64, count: usize) -> Option<u32>
    requires few { count < 2 ^ 32 }
    ensures function { result ≡ call.function_numbered count number }
    ensures first { IfSome result (λ function. 0 < function) }
    ensures last { IfSome result (λ function. function ≤ count) }
{
    if number < 1 || number > count as i64 {
        return None;
    }
    Some(number as u32)
}

// The call of a line that was read, of which so many values were found.
fn counted(line: ScriptLine, count: usize, found: usize) -> Result<ReadCall, ScriptWhy>
    requires few { found ≤ 4096 }
    ensures { MatchResult result
        (λ read. (found ≡ count) × (read ≡ record { line = line; count = found }))
        (λ why. (found ≢ count) × (why ≡ ScriptWhy.Count found)) }
{
    if found == count {
        Ok(ReadCall { line, count })
    } else {
        Err(ScriptWhy::Count(found as u32))
    }
}
