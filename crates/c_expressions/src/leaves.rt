// What is cast in an expression: a parameter, a field, a field of a field, or an item of an array.
ghost use Rattle.std.specs.Prelude.{◌≡◌};
ghost use Rattle.c_grammar.specs.Parsing as parsing;
ghost use Rattle.c_expressions.specs.Gives.{Gives};
ghost use Rattle.c_expressions.specs.Operands.{boxed_expr};

use crate::build;
use crate::reader::{Parse, Reader, syntax_on};
use c_grammar::{Tail, WrittenExpr, WrittenLeaf};
use c_tokens::{Tokens, is, is_name, tail_of};

impl Reader {
    /// An index between `[` and `]`, in which so many more levels may be opened.
    #[cycle(expressions)]
    pub fn index<'a>(self, levels: u32, tokens: &Tokens<'a>) -> Parse<'a, Box<WrittenExpr<'a>>>
        ensures { Gives boxed_expr result
            (parsing.parse_index self.last (parsing.parse_operand self.last levels) tokens.now) }
    {
        let (_, rest) = self.next(tokens)?;
        let (index, rest) = self.value(levels, &rest)?;
        let rest = self.word(&rest, b"]")?;
        Ok((index, rest))
    }

    // A leaf after the name of its own field; the line is that of the `s`.
    #[cycle(expressions)]
    fn tail<'a>(
        self,
        levels: u32,
        line: u32,
        field: &'a [u8],
        tokens: Tokens<'a>,
    ) -> Parse<'a, Box<WrittenExpr<'a>>>
        ensures { Gives boxed_expr result
            (parsing.parse_tail self.last (parsing.parse_operand self.last levels) line field.now
            tokens.entry (parsing.tail_of (parsing.first_text tokens.entry))) }
    {
        match tail_of(tokens.first_text()) {
            Tail::Dot => {
                let (_, rest) = self.next(&tokens)?;
                let (inner, rest) = self.name(&rest)?;
                let leaf = WrittenLeaf::Child(field, inner);
                Ok((build::read(self.alloc, line, leaf)?, rest))
            }
            Tail::Bracket => {
                let (index, rest) = self.index(levels, &tokens)?;
                Ok((build::item(self.alloc, line, field, index)?, rest))
            }
            Tail::Nothing => Ok((
                build::read(self.alloc, line, WrittenLeaf::Own(field))?,
                tokens,
            )),
        }
    }

    /// What is cast to an `int64_t`, after the cast.
    #[cycle(expressions)]
    pub(crate) fn leaf<'a>(
        self,
        levels: u32,
        tokens: &Tokens<'a>,
    ) -> Parse<'a, Box<WrittenExpr<'a>>>
        ensures { Gives boxed_expr result
            (parsing.parse_leaf self.last (parsing.parse_operand self.last levels) tokens.now) }
    {
        let (token, rest) = self.next(tokens)?;
        if is(token.text, b"s") {
            let (field, rest) = self.field_name(&rest)?;
            return self.tail(levels, token.line, field, rest);
        }
        if !is_name(token.text) {
            return Err(syntax_on(token.line).into());
        }
        let leaf = WrittenLeaf::Param(token.text);
        Ok((build::read(self.alloc, token.line, leaf)?, rest))
    }
}
