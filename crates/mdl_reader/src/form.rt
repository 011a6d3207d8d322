ghost use Rattle.std.specs.Prelude.{◌≡◌, ◌≤◌, length};
ghost use Rattle.std.specs.List.{prefix_len};
ghost use Rattle.mdl_tree.specs.Text.{Faulty, Whole, is_name_byte, is_open_brace, parameter_form, named_form, line_form};
ghost use Rattle.mdl_reader.specs.Faults.{Answers};
ghost use Rattle.mdl_reader.specs.Forms.{form_of};

use crate::fault::ReadFault;
use crate::strings::read_string;
use base_core::{is_blank, trim_start};
use base_refusals::SyntaxKind;
use std::alloc::Global;

/// What a line that is in no value in brackets says.
#[derive(Drop)]
pub(crate) enum Form<'a> {
    /// Nothing.
    Empty,
    /// A section of this name begins.
    Opens(&'a [u8]),
    /// The innermost section ends.
    Closes,
    /// A parameter has this text as its value.
    Plain { name: &'a [u8], value: &'a [u8] },
    /// A parameter has a quoted value, which further strings may continue.
    Quoted { name: &'a [u8], value: Vec<u8> },
    /// A string alone, which continues the value before it.
    Further(Vec<u8>),
    /// A parameter's value begins with a bracket that isn't closed in this line.
    Begins { name: &'a [u8], value: &'a [u8] },
}

fn is_name_byte(byte: u8) -> bool
    ensures { result ≡ is_name_byte byte }
{
    byte.is_ascii_alphabetic() || byte.is_ascii_digit() || matches!(byte, b'_' | b'.' | b'$')
}

/// How many bytes of a name are at the front.
fn name_len(text: &[u8]) -> usize
    ensures value { result ≡ prefix_len is_name_byte text.now }
    ensures within { result ≤ length text.now }
{
    text.iter().take_while(|byte| is_name_byte(**byte)).count()
}

fn is_open_brace(text: &[u8]) -> bool
    ensures { result ≡ is_open_brace text.now }
{
    matches!(text, [b'{'])
}

/// A parameter by the text after its name and blanks.
fn parameter_form<'a>(
    alloc: Global,
    line: u32,
    name: &'a [u8],
    text: &'a [u8],
) -> Result<Form<'a>, ReadFault>
    ensures { Answers result
        (λ form. form_of line form ≡ parameter_form line name.now text.now)
        (λ told kind. parameter_form line name.now text.now ≡ Whole (Faulty told kind)) }
{
    match text {
        [b'"', string @ ..] => {
            let value = read_string(alloc, line, string)?;
            Ok(Form::Quoted { name, value })
        }
        [b'[', rest @ ..] if !rest.contains(&b']') => Ok(Form::Begins { name, value: text }),
        _ => Ok(Form::Plain { name, value: text }),
    }
}

/// A line that begins with a name, by the name and what is directly after it.
fn named_form<'a>(
    alloc: Global,
    line: u32,
    name: &'a [u8],
    behind: &'a [u8],
) -> Result<Form<'a>, ReadFault>
    ensures { Answers result
        (λ form. form_of line form ≡ named_form line name.now behind.now)
        (λ told kind. named_form line name.now behind.now ≡ Whole (Faulty told kind)) }
{
    let text = trim_start(behind);
    if is_open_brace(text) {
        return Ok(Form::Opens(name));
    }
    match behind {
        [] => Ok(Form::Plain { name, value: text }),
        [byte, ..] if is_blank(*byte) => parameter_form(alloc, line, name, text),
        _ => Err(ReadFault::at(line, SyntaxKind::BadName)),
    }
}

/// What a line without the blanks at its ends says. An error is one of this line.
pub(crate) fn line_form<'a>(alloc: Global, line: u32, text: &'a [u8]) -> Result<Form<'a>, ReadFault>
    ensures { Answers result
        (λ form. form_of line form ≡ line_form line text.now)
        (λ told kind. line_form line text.now ≡ Whole (Faulty told kind)) }
{
    match text {
        [] | [b'#', ..] => Ok(Form::Empty),
        [b'}'] => Ok(Form::Closes),
        [b'"', string @ ..] => Ok(Form::Further(read_string(alloc, line, string)?)),
        [first, ..] if is_name_byte(*first) && !first.is_ascii_digit() => {
            let (name, behind) = text.split_at(name_len(text));
            named_form(alloc, line, name, behind)
        }
        _ => Err(ReadFault::at(line, SyntaxKind::BadName)),
    }
}
