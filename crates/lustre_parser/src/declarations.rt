// Declared names, and lists of them.
ghost use Rattle.std.specs.Prelude.{◌≡◌, map};
ghost use Rattle.c_expressions.specs.Gives.{Gives};
ghost use Rattle.lustre_grammar.specs.Parsing as parsing;
ghost use Rattle.lustre_grammar.specs.WrittenTrees.{declared_of};
ghost use Rattle.lustre_parser.specs.Views.{interface_of};

use crate::forms::Form;
use crate::lists::{Element, list};
use crate::reader::{Parse, Reader};
use lustre_grammar::LusWrittenDecl;
use lustre_tokens::Tokens;

impl<'a> Element<'a> for LusWrittenDecl<'a> {
    ghost use Rattle.lustre_grammar.specs.Written.{WrittenDeclared};
    ghost use Rattle.lustre_grammar.proofs.lemmas.Continuing.{declared-takes_tokens};

    ghost Written = { WrittenDeclared };

    ghost written = { declared_of };

    ghost parse = { parsing.parse_declared };

    ghost takes = { declared-takes_tokens };

    fn read(reader: Reader, tokens: &Tokens<'a>) -> Parse<'a, LusWrittenDecl<'a>> {
        let (word, rest) = reader.name(tokens)?;
        let rest = reader.word(&rest, b":")?;
        let (is_bool, rest) = reader.value_type(&rest)?;
        let declared = LusWrittenDecl {
            line: word.line,
            name: word.text,
            is_bool,
        };
        Ok((declared, rest))
    }
}

/// The inputs and outputs of a node.
#[derive(Drop)]
pub(crate) struct Interface<'a> {
    pub(crate) inputs: Vec<LusWrittenDecl<'a>>,
    pub(crate) outputs: Vec<LusWrittenDecl<'a>>,
}

// Inputs or outputs.
fn ports<'a>(reader: Reader, tokens: &Tokens<'a>) -> Parse<'a, Vec<LusWrittenDecl<'a>>>
    ensures { Gives (λ v. map declared_of v.items) result
        (parsing.parse_ports reader.last tokens.now) }
{
    let rest = reader.word(tokens, b"(")?;
    list(reader, Form::Ports, rest)
}

/// What follows the name of a node, up to the `;`.
pub(crate) fn inputs_and_outputs<'a>(
    reader: Reader,
    tokens: &Tokens<'a>,
) -> Parse<'a, Interface<'a>>
    ensures { Gives interface_of result (parsing.parse_interface reader.last tokens.now) }
{
    let (inputs, rest) = ports(reader, tokens)?;
    let rest = reader.word(&rest, b"returns")?;
    let (outputs, rest) = ports(reader, &rest)?;
    let rest = reader.word(&rest, b";")?;
    Ok((Interface { inputs, outputs }, rest))
}
