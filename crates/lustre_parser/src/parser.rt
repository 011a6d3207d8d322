// A whole text.
ghost use Rattle.c_rules.specs.Gives.{Gives};
ghost use Rattle.lustre_grammar.specs.Parsing as parsing;
ghost use Rattle.lustre_grammar.specs.ParsedText.{parse_text};
ghost use Rattle.lustre_grammar.specs.WrittenTrees.{file_of};

use crate::forms::Form;
use crate::lists::list;
use crate::reader::Reader;
use c_expressions::syntax_on;
use c_tokens::last_line;
use lustre_grammar::{LusWrittenFile, ReadLusFault};
use lustre_tokens::Tokens;
use std::alloc::Global;

fn file<'a>(reader: Reader, tokens: Tokens<'a>) -> Result<LusWrittenFile<'a>, ReadLusFault>
    ensures { Gives file_of result (parsing.parse_file reader.last tokens.entry) }
{
    let (nodes, _) = list(reader, Form::Nodes, tokens)?;
    if nodes.is_empty() {
        return Err(syntax_on(reader.last).into());
    }
    Ok(LusWrittenFile { nodes })
}

/// The file that is written in a text, by names and with lines.
///
/// # Errors
///
/// `Refused` with the first error of the grammar: `Syntax` or `Deep` at the first token with which no file goes on or that opens
/// an expression more than 100 deep. `Memory` where memory ran out.
pub fn parse_lustre<'a>(alloc: Global, bytes: &'a [u8]) -> Result<LusWrittenFile<'a>, ReadLusFault>
    ensures { Gives file_of result (parse_text bytes.now) }
{
    let last = last_line(bytes);
    file(Reader { alloc, last }, Tokens::new(bytes, 1))
}
