// Lists of elements of one kind.
ghost use Rattle.std.specs.Prelude.{◌≡◌, ℕ, List, map};
ghost use Rattle.c_grammar.specs.Tokens as grammar;
ghost use Rattle.c_grammar.specs.Parsing.{Parsed};
ghost use Rattle.c_expressions.specs.Gives.{Gives, GivesMore};
ghost use Rattle.lustre_grammar.specs.Elements.{TakesTokens};
ghost use Rattle.lustre_grammar.specs.Parsing as parsing;
ghost use Rattle.lustre_parser.specs.Views.{form_of};

use crate::forms::Form;
use crate::reader::{Parse, Reader};
use lustre_tokens::Tokens;

/// What lists are made of.
pub(crate) trait Element<'a>: Sized + Drop {
    // What an element is written as.
    ghost Written: { Type 0 };

    ghost written: { Self → Written };

    // What the grammar gives, where the last line of the text is this.
    ghost parse: { ℕ → List grammar.Token → Parsed Written };

    /// An element that these tokens begin with.
    fn read(reader: Reader, tokens: &Tokens<'a>) -> Parse<'a, Self>
        ensures { Gives written result (parse reader.last tokens.now) };

    // Each takes a token at least, so that a list ends.
    ghost takes: { TakesTokens parse };
}

/// One more element of a list with so many before it, or its end.
fn step<'a, E: Element<'a>>(
    reader: Reader,
    form: Form,
    count: usize,
    tokens: Tokens<'a>,
) -> Parse<'a, Option<E>>
    ensures { GivesMore E.written result
        (parsing.list_step reader.last (form_of form) (E.parse reader.last) count
        tokens.entry) }
{
    if form.is_closed(&tokens) {
        return Ok((None, tokens.rest()));
    }
    let rest = reader.mark(tokens, form.lead(count))?;
    let (element, rest) = E::read(reader, &rest)?;
    let rest = reader.mark(rest, form.after())?;
    Ok((Some(element), rest))
}

/// The elements of a list, up to its end.
pub(crate) fn list<'a, E: Element<'a>>(
    reader: Reader,
    form: Form,
    tokens: Tokens<'a>,
) -> Parse<'a, Vec<E>>
    ensures { Gives (λ v. map E.written v.items) result
        (parsing.parse_list reader.last (form_of form) (E.parse reader.last) tokens.entry) }
{
    let mut elements = Vec::new(reader.alloc);
    let mut rest = tokens;
    loop {
        let (element, later) = step(reader, form, elements.len(), rest)?;
        let Some(element) = element else {
            return Ok((elements, later));
        };
        elements.push(element)?;
        rest = later;
    }
}
