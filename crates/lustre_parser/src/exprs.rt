// Expressions by recursive descent, at most so many levels deep.
ghost use Rattle.std.specs.Prelude.{◌≡◌, if◌then◌else◌};
ghost use Rattle.c_syntax.specs.declared.fault.CKind.TheVariants.{Syntax, Deep};
ghost use Rattle.c_grammar.specs.Prefix.{fault_at};
ghost use Rattle.c_expressions.specs.Gives.{Gives};
ghost use Rattle.lustre_syntax.specs.Lawful as limits;
ghost use Rattle.lustre_grammar.specs.Parsing as parsing;
ghost use Rattle.lustre_grammar.specs.WrittenTrees.{expr_of};
ghost use Rattle.lustre_parser.specs.Views.{boxed_expr};

use crate::lists::Element;
use crate::reader::{Parse, Reader};
use c_expressions::{deep_on, syntax_on};
use c_syntax::CFault;
use c_tokens::{Token, is};
use lustre_grammar::{Inside, Joint, LusWrittenExpr};
use lustre_tokens::{Tokens, inside_of, is_opener, joint_of_text, leaf_of};

/// How deep an expression may be.
fn expr_limit() -> u32
    ensures { result ≡ limits.expr_limit }
{
    100
}

/// Two operands and what joins them.
fn join<'a>(
    joint: Joint,
    left: Box<LusWrittenExpr<'a>>,
    right: Box<LusWrittenExpr<'a>>,
) -> LusWrittenExpr<'a>
    ensures { expr_of result
        ≡ parsing.joined joint (boxed_expr left.entry) (boxed_expr right.entry) }
{
    match joint {
        Joint::Operator(op) => LusWrittenExpr::Two(op, left, right),
        Joint::Arrow => LusWrittenExpr::Arrow(left, right),
    }
}

/// Why no expression begins with a token where no level is left.
fn beyond(token: &Token) -> CFault
    ensures { result ≡ fault_at token.now.line
        (if parsing.is_opener token.now.text then Deep else Syntax) }
{
    if is_opener(token.text) {
        deep_on(token.line)
    } else {
        syntax_on(token.line)
    }
}

impl Reader {
    /// An expression, where so many more levels may be opened.
    #[cycle(expressions)]
    fn expression<'a>(self, levels: u32, tokens: &Tokens<'a>) -> Parse<'a, LusWrittenExpr<'a>>
        ensures { Gives expr_of result (parsing.parse_expr self.last levels tokens.now) }
    {
        let (token, rest) = self.next(tokens)?;
        if levels == 0 {
            return Err(beyond(&token).into());
        }
        self.opened(levels - 1, &token, rest)
    }

    /// The same in a box.
    #[cycle(expressions)]
    fn boxed<'a>(self, levels: u32, tokens: &Tokens<'a>) -> Parse<'a, Box<LusWrittenExpr<'a>>>
        ensures { Gives boxed_expr result (parsing.parse_expr self.last levels tokens.now) }
    {
        let (value, rest) = self.expression(levels, tokens)?;
        Ok((Box::new(self.alloc, value)?, rest))
    }

    /// An expression in a box, up to the `)`.
    #[cycle(expressions)]
    fn closed<'a>(self, levels: u32, tokens: &Tokens<'a>) -> Parse<'a, Box<LusWrittenExpr<'a>>>
        ensures { Gives boxed_expr result
            (parsing.parse_closed self.last (parsing.parse_expr self.last levels) tokens.now) }
    {
        let (operand, rest) = self.boxed(levels, tokens)?;
        let rest = self.word(&rest, b")")?;
        Ok((operand, rest))
    }

    /// A choice after its `if`.
    #[cycle(expressions)]
    fn choice<'a>(self, levels: u32, tokens: &Tokens<'a>) -> Parse<'a, LusWrittenExpr<'a>>
        ensures { Gives expr_of result
            (parsing.parse_choice self.last (parsing.parse_expr self.last levels) tokens.now) }
    {
        let (test, rest) = self.boxed(levels, tokens)?;
        let rest = self.word(&rest, b"then")?;
        let (on_true, rest) = self.boxed(levels, &rest)?;
        let rest = self.word(&rest, b"else")?;
        let (on_false, rest) = self.closed(levels, &rest)?;
        Ok((LusWrittenExpr::If(test, on_true, on_false), rest))
    }

    /// The value of a name at the tick before, after the `pre`.
    fn previous<'a>(self, tokens: &Tokens<'a>) -> Parse<'a, LusWrittenExpr<'a>>
        ensures { Gives expr_of result
            (parsing.parse_previous self.last (parsing.parse_expr self.last 0) tokens.now) }
    {
        let (name, rest) = self.name(tokens)?;
        let rest = self.word(&rest, b")")?;
        Ok((LusWrittenExpr::Pre(name), rest))
    }

    #[cycle(expressions)]
    fn joined<'a>(self, levels: u32, tokens: &Tokens<'a>) -> Parse<'a, LusWrittenExpr<'a>>
        ensures { Gives expr_of result
            (parsing.parse_joined self.last (parsing.parse_expr self.last levels) tokens.now) }
    {
        let (left, rest) = self.boxed(levels, tokens)?;
        let (token, rest) = self.next(&rest)?;
        let Some(joint) = joint_of_text(token.text) else {
            return Err(syntax_on(token.line).into());
        };
        let (right, rest) = self.closed(levels, &rest)?;
        Ok((join(joint, left, right), rest))
    }

    // What follows a `(`, whole and without its first token.
    #[cycle(expressions)]
    fn inside<'a>(
        self,
        levels: u32,
        tokens: &Tokens<'a>,
        rest: &Tokens<'a>,
        inside: Inside,
    ) -> Parse<'a, LusWrittenExpr<'a>>
        ensures { Gives expr_of result
            (parsing.parse_inside self.last (parsing.parse_expr self.last levels) tokens.now
            rest.now inside) }
    {
        match inside {
            Inside::Minus => {
                let (operand, rest) = self.closed(levels, rest)?;
                Ok((LusWrittenExpr::Neg(operand), rest))
            }
            Inside::Not => {
                let (operand, rest) = self.closed(levels, rest)?;
                Ok((LusWrittenExpr::Not(operand), rest))
            }
            Inside::If => self.choice(levels, rest),
            Inside::Pre => self.previous(rest),
            Inside::First => self.joined(levels, tokens),
        }
    }

    #[cycle(expressions)]
    fn parens<'a>(self, levels: u32, tokens: &Tokens<'a>) -> Parse<'a, LusWrittenExpr<'a>>
        ensures { Gives expr_of result
            (parsing.parse_parens self.last (parsing.parse_expr self.last levels) tokens.now) }
    {
        let (token, rest) = self.next(tokens)?;
        self.inside(levels, tokens, &rest, inside_of(token.text))
    }

    // An expression that begins with a token, which may be the whole of it.
    #[cycle(expressions)]
    fn opened<'a>(
        self,
        levels: u32,
        token: &Token<'a>,
        tokens: Tokens<'a>,
    ) -> Parse<'a, LusWrittenExpr<'a>>
        ensures { Gives expr_of result
            (parsing.parse_opened self.last (parsing.parse_expr self.last levels) token.now
            tokens.entry (parsing.leaf_of token.now)) }
    {
        if let Some(leaf) = leaf_of(token) {
            return Ok((leaf, tokens));
        }
        if !is(token.text, b"(") {
            return Err(syntax_on(token.line).into());
        }
        self.parens(levels, &tokens)
    }

    /// An outermost expression.
    pub(crate) fn value<'a>(self, tokens: &Tokens<'a>) -> Parse<'a, LusWrittenExpr<'a>>
        ensures { Gives expr_of result (parsing.parse_value self.last tokens.now) }
    {
        self.expression(expr_limit(), tokens)
    }
}

impl<'a> Element<'a> for LusWrittenExpr<'a> {
    ghost use Rattle.lustre_grammar.specs.Written.{WrittenExpr};
    ghost use Rattle.lustre_grammar.proofs.lemmas.Continuing.{value-takes_tokens};

    ghost Written = { WrittenExpr };

    ghost written = { expr_of };

    ghost parse = { parsing.parse_value };

    ghost takes = { value-takes_tokens };

    fn read(reader: Reader, tokens: &Tokens<'a>) -> Parse<'a, LusWrittenExpr<'a>> {
        reader.value(tokens)
    }
}
