// The numbers that fields write.
ghost use Rattle.std.specs.Prelude.{◌≡◌, ◌≤◌, None, length, MatchOption, IfSome};
ghost use Rattle.tool_traces.specs.Fields.{fields};
ghost use Rattle.tool_scripts.specs.Numbers.{numbers_of, HasRead};

use tool_traces::{field_number, next_field};

// How many numbers the fields of the text write. The first of them are written into `into`, as many as it has room for. None
// where a field writes no number.
pub(crate) fn read_numbers(text: &[u8], into: &mut [i64]) -> Option<usize>
    ensures numbers { MatchOption result (numbers_of (fields text.now) ≡ None)
        (λ found. HasRead (numbers_of (fields text.now)) found into.new) }
    ensures few { IfSome result (λ found. found ≤ length text.now) }
    ensures room { length into.new ≡ length into.old }
{
    let mut found = 0;
    let mut rest = text;
    while let Some((field, behind)) = next_field(rest) {
        let number = field_number(field)?;
        if found < into.len() {
            into[found] = number;
        }
        found += 1;
        rest = behind;
    }
    Some(found)
}
