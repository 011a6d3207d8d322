// Nodes.
ghost use Rattle.std.specs.Prelude.{◌≡◌};
ghost use Rattle.c_expressions.specs.Gives.{Gives};
ghost use Rattle.lustre_grammar.specs.Parsing as parsing;
ghost use Rattle.lustre_grammar.specs.WrittenTrees.{node_of};
ghost use Rattle.lustre_parser.specs.Views.{body_of};

use crate::declarations::{Interface, inputs_and_outputs};
use crate::forms::Form;
use crate::lists::{Element, list};
use crate::reader::{Parse, Reader};
use c_expressions::syntax_on;
use c_tokens::is;
use lustre_grammar::{LusWrittenDecl, LusWrittenEq, LusWrittenNode};
use lustre_tokens::Tokens;

/// The further names and the equations of a node.
#[derive(Drop)]
pub(crate) struct Body<'a> {
    pub(crate) others: Vec<LusWrittenDecl<'a>>,
    pub(crate) equations: Vec<LusWrittenEq<'a>>,
}

/// What follows the inputs and outputs of a node.
fn names_and_equations<'a>(reader: Reader, tokens: Tokens<'a>) -> Parse<'a, Body<'a>>
    ensures { Gives body_of result (parsing.parse_body reader.last tokens.entry) }
{
    let (others, rest) = list(reader, Form::Others, tokens)?;
    let (equations, rest) = list(reader, Form::Equations, rest)?;
    let rest = reader.word(&rest, b";")?;
    Ok((Body { others, equations }, rest))
}

impl<'a> Element<'a> for LusWrittenNode<'a> {
    ghost use Rattle.lustre_grammar.specs.Written.{WrittenNode};
    ghost use Rattle.lustre_grammar.proofs.lemmas.Continuing.{node-takes_tokens};

    ghost Written = { WrittenNode };

    ghost written = { node_of };

    ghost parse = { parsing.parse_node };

    ghost takes = { node-takes_tokens };

    fn read(reader: Reader, tokens: &Tokens<'a>) -> Parse<'a, LusWrittenNode<'a>> {
        let (token, rest) = reader.next(tokens)?;
        if !is(token.text, b"node") {
            return Err(syntax_on(token.line).into());
        }
        let (name, rest) = reader.name(&rest)?;
        let (interface, rest) = inputs_and_outputs(reader, &rest)?;
        let (body, rest) = names_and_equations(reader, rest)?;
        let Interface { inputs, outputs } = interface;
        let Body { others, equations } = body;
        let node = LusWrittenNode {
            line: token.line,
            name: name.text,
            inputs,
            outputs,
            others,
            equations,
        };
        Ok((node, rest))
    }
}
