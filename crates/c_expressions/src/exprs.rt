// Expressions and conditions by recursive descent, at most so many levels deep.
ghost use Rattle.std.specs.Prelude.{◌≡◌, map, codes, length, suc};
ghost use Rattle.c_grammar.specs.Parsing as parsing;
ghost use Rattle.c_expressions.specs.Gives.{Gives, GivesMore, behind};
ghost use Rattle.c_expressions.specs.Operands.{operand_of, boxed_expr, boxed_cond};
ghost use Rattle.c_grammar.specs.WrittenTrees.{expr_of};
ghost use Rattle.c_grammar.specs.declared.openers.Want.TheVariants as wants;
ghost use Rattle.c_grammar.specs.declared.openers.Inside.TheVariants as insides;
ghost use Rattle.c_grammar.specs.declared.openers.TestJoint.TheVariants as joints;

use crate::build;
use crate::operands::Operand;
use crate::reader::{Parse, Reader, deep_on, syntax_on};
use c_grammar::{Comma, Inside, Opener, TestJoint, ValueJoint, Want, WrittenCond, WrittenExpr};
use c_tokens::{
    Token, Tokens, comma_of, inside_of, lists_continue, opener_of, test_joint, value_joint,
};

/// A token that was taken, with those after it.
#[derive(Drop)]
struct Taken<'a> {
    token: Token<'a>,
    rest: Tokens<'a>,
}

impl Reader {
    fn too_deep<'a>(self, token: &Token<'a>, opener: Opener) -> Parse<'a, Operand<'a>>
        ensures { Gives operand_of result (parsing.opened_too_deep self.last token.now opener) }
    {
        match opener {
            Opener::Number | Opener::Call | Opener::Paren => Err(deep_on(token.line).into()),
            Opener::Nothing => Err(syntax_on(token.line).into()),
        }
    }

    #[cycle(expressions)]
    fn operand<'a>(self, levels: u32, want: Want, tokens: &Tokens<'a>) -> Parse<'a, Operand<'a>>
        ensures { Gives operand_of result (parsing.parse_operand self.last levels want tokens.now) }
    {
        let (token, rest) = self.next(tokens)?;
        let opener = opener_of(want, token.text);
        if levels == 0 {
            return self.too_deep(&token, opener);
        }
        self.opened(levels - 1, want, &Taken { token, rest }, opener)
    }

    /// An expression, where so many more levels may be opened.
    #[cycle(expressions)]
    pub fn value<'a>(self, levels: u32, tokens: &Tokens<'a>) -> Parse<'a, Box<WrittenExpr<'a>>>
        ensures { Gives boxed_expr result (parsing.parse_expr self.last levels tokens.now) }
    {
        let (operand, rest) = self.operand(levels, Want::Value, tokens)?;
        match operand {
            Operand::Value(value) => Ok((value, rest)),
            Operand::Test(_) => Err(syntax_on(self.last).into()),
        }
    }

    /// A condition, where so many more levels may be opened.
    #[cycle(expressions)]
    pub fn test<'a>(self, levels: u32, tokens: &Tokens<'a>) -> Parse<'a, Box<WrittenCond<'a>>>
        ensures { Gives boxed_cond result (parsing.parse_cond self.last levels tokens.now) }
    {
        let (operand, rest) = self.operand(levels, Want::Test, tokens)?;
        match operand {
            Operand::Test(test) => Ok((test, rest)),
            Operand::Value(_) => Err(syntax_on(self.last).into()),
        }
    }

    fn number<'a>(self, tokens: &Tokens<'a>) -> Parse<'a, Operand<'a>>
        ensures { Gives operand_of result
            (parsing.parse_number self.last (parsing.parse_operand self.last 0) tokens.now) }
    {
        let rest = self.word(tokens, b"(")?;
        let (number, rest) = self.literal(&rest)?;
        let rest = self.word(&rest, b")")?;
        Ok((Operand::Value(build::literal(self.alloc, number)?), rest))
    }

    #[cycle(expressions)]
    fn values_step<'a>(self, levels: u32, tokens: &Tokens<'a>) -> Parse<'a, Option<WrittenExpr<'a>>>
        ensures { GivesMore expr_of result
            (parsing.values_step self.last (parsing.parse_operand self.last levels) 0 tokens.now) }
    {
        let (token, rest) = self.next(tokens)?;
        match comma_of(token.text) {
            Comma::Another => {
                let (value, rest) = self.value(levels, &rest)?;
                Ok((Some(Box::into_inner(value)), rest))
            }
            Comma::Closed => Ok((None, rest)),
            Comma::Nothing => Err(syntax_on(token.line).into()),
        }
    }

    // The further arguments of a pure function, after others.
    #[cycle(expressions)]
    fn later_values<'a>(
        self,
        levels: u32,
        values: Vec<WrittenExpr<'a>>,
        tokens: Tokens<'a>,
    ) -> Parse<'a, Vec<WrittenExpr<'a>>>
        ensures { Gives (λ v. map expr_of v.items) result (behind (map expr_of values.entry.items)
            (parsing.many (parsing.values_step self.last (parsing.parse_operand self.last levels))
            (suc (length tokens.entry)) 0 tokens.entry)) }
    {
        lists_continue();
        let mut values = values;
        let mut rest = tokens;
        loop {
            let (value, later) = self.values_step(levels, &rest)?;
            let Some(value) = value else {
                return Ok((values, later));
            };
            values.push(value)?;
            rest = later;
        }
    }

    #[cycle(expressions)]
    fn pure_call<'a>(self, levels: u32, name: &Taken<'a>) -> Parse<'a, Operand<'a>>
        ensures { Gives operand_of result
            (parsing.parse_values self.last (parsing.parse_operand self.last levels)
            name.now.token name.now.rest) }
    {
        let rest = self.word(&name.rest, b"(")?;
        let (first, rest) = self.value(levels, &rest)?;
        let mut values = Vec::new(self.alloc);
        values.push(Box::into_inner(first))?;
        let (values, rest) = self.later_values(levels, values, rest)?;
        let call = build::pure(self.alloc, name.token.line, name.token.text, values)?;
        Ok((Operand::Value(call), rest))
    }

    #[cycle(expressions)]
    fn minus<'a>(self, levels: u32, tokens: &Tokens<'a>) -> Parse<'a, Operand<'a>>
        ensures { Gives operand_of result
            (parsing.parse_inside self.last (parsing.parse_operand self.last levels) wants.Any
            tokens.now insides.Minus) }
    {
        let (_, rest) = self.next(tokens)?;
        let (operand, rest) = self.value(levels, &rest)?;
        let rest = self.word(&rest, b")")?;
        Ok((Operand::Value(build::negative(self.alloc, operand)?), rest))
    }

    #[cycle(expressions)]
    fn negation<'a>(self, levels: u32, tokens: &Tokens<'a>) -> Parse<'a, Operand<'a>>
        ensures { Gives operand_of result
            (parsing.parse_inside self.last (parsing.parse_operand self.last levels) wants.Any
            tokens.now insides.Not) }
    {
        let (_, rest) = self.next(tokens)?;
        let (operand, rest) = self.test(levels, &rest)?;
        let rest = self.word(&rest, b")")?;
        Ok((Operand::Test(build::negated(self.alloc, operand)?), rest))
    }

    #[cycle(expressions)]
    fn cast_leaf<'a>(self, levels: u32, tokens: &Tokens<'a>) -> Parse<'a, Operand<'a>>
        ensures { Gives operand_of result
            (parsing.parse_inside self.last (parsing.parse_operand self.last levels) wants.Any
            tokens.now insides.Cast) }
    {
        let (_, rest) = self.next(tokens)?;
        let rest = self.word(&rest, b")")?;
        let (leaf, rest) = self.leaf(levels, &rest)?;
        Ok((Operand::Value(leaf), rest))
    }

    #[cycle(expressions)]
    fn join_value<'a>(
        self,
        levels: u32,
        left: Box<WrittenExpr<'a>>,
        taken: &Taken<'a>,
        joint: ValueJoint,
    ) -> Parse<'a, Operand<'a>>
        ensures { Gives operand_of result
            (parsing.join_value self.last (parsing.parse_operand self.last levels)
            (boxed_expr left.entry) taken.now.token taken.now.rest joint) }
    {
        match joint {
            ValueJoint::Operator(op) => {
                let (right, rest) = self.value(levels, &taken.rest)?;
                let value = build::binary(self.alloc, op, left, right)?;
                Ok((Operand::Value(value), rest))
            }
            ValueJoint::Comparison(how) => {
                let (right, rest) = self.value(levels, &taken.rest)?;
                let test = build::compare(self.alloc, how, left, right)?;
                Ok((Operand::Test(test), rest))
            }
            ValueJoint::Nothing => Err(syntax_on(taken.token.line).into()),
        }
    }

    #[cycle(expressions)]
    fn pick<'a>(
        self,
        levels: u32,
        test: Box<WrittenCond<'a>>,
        taken: &Taken<'a>,
    ) -> Parse<'a, Operand<'a>>
        ensures { Gives operand_of result
            (parsing.join_test self.last (parsing.parse_operand self.last levels)
            (boxed_cond test.entry) taken.now.token taken.now.rest joints.Pick) }
    {
        let (on_true, rest) = self.value(levels, &taken.rest)?;
        let rest = self.word(&rest, b":")?;
        let (on_false, rest) = self.value(levels, &rest)?;
        Ok((
            Operand::Value(build::pick(self.alloc, test, on_true, on_false)?),
            rest,
        ))
    }

    #[cycle(expressions)]
    fn join_test<'a>(
        self,
        levels: u32,
        left: Box<WrittenCond<'a>>,
        taken: &Taken<'a>,
        joint: TestJoint,
    ) -> Parse<'a, Operand<'a>>
        ensures { Gives operand_of result
            (parsing.join_test self.last (parsing.parse_operand self.last levels)
            (boxed_cond left.entry) taken.now.token taken.now.rest joint) }
    {
        match joint {
            TestJoint::And => {
                let (right, rest) = self.test(levels, &taken.rest)?;
                Ok((Operand::Test(build::both(self.alloc, left, right)?), rest))
            }
            TestJoint::Or => {
                let (right, rest) = self.test(levels, &taken.rest)?;
                Ok((Operand::Test(build::either(self.alloc, left, right)?), rest))
            }
            TestJoint::Pick => self.pick(levels, left, taken),
            TestJoint::Nothing => Err(syntax_on(taken.token.line).into()),
        }
    }

    #[cycle(expressions)]
    fn join<'a>(
        self,
        levels: u32,
        want: Want,
        first: Operand<'a>,
        taken: &Taken<'a>,
    ) -> Parse<'a, Operand<'a>>
        ensures { Gives operand_of result
            (parsing.join self.last (parsing.parse_operand self.last levels) want
            (operand_of first.entry) (taken.now.token, taken.now.rest)) }
    {
        match first {
            Operand::Value(left) => {
                let joint = value_joint(want, taken.token.text);
                self.join_value(levels, left, taken, joint)
            }
            Operand::Test(left) => {
                let joint = test_joint(want, taken.token.text);
                self.join_test(levels, left, taken, joint)
            }
        }
    }

    #[cycle(expressions)]
    fn joined<'a>(self, levels: u32, want: Want, tokens: &Tokens<'a>) -> Parse<'a, Operand<'a>>
        ensures { Gives operand_of result
            (parsing.parse_inside self.last (parsing.parse_operand self.last levels) want tokens.now
            insides.First) }
    {
        let (first, rest) = self.operand(levels, Want::Any, tokens)?;
        let (token, rest) = self.next(&rest)?;
        let (operand, rest) = self.join(levels, want, first, &Taken { token, rest })?;
        let rest = self.word(&rest, b")")?;
        Ok((operand, rest))
    }

    #[cycle(expressions)]
    fn inside<'a>(
        self,
        levels: u32,
        want: Want,
        tokens: &Tokens<'a>,
        inside: Inside,
    ) -> Parse<'a, Operand<'a>>
        ensures { Gives operand_of result
            (parsing.parse_inside self.last (parsing.parse_operand self.last levels) want tokens.now
            inside) }
    {
        match inside {
            Inside::Minus => self.minus(levels, tokens),
            Inside::Not => self.negation(levels, tokens),
            Inside::Cast => self.cast_leaf(levels, tokens),
            Inside::First => self.joined(levels, want, tokens),
        }
    }

    #[cycle(expressions)]
    fn opened<'a>(
        self,
        levels: u32,
        want: Want,
        taken: &Taken<'a>,
        opener: Opener,
    ) -> Parse<'a, Operand<'a>>
        ensures { Gives operand_of result
            (parsing.parse_opened self.last (parsing.parse_operand self.last levels) want
            taken.now.token taken.now.rest opener) }
    {
        match opener {
            Opener::Number => self.number(&taken.rest),
            Opener::Call => self.pure_call(levels, taken),
            Opener::Paren => {
                let inside = inside_of(want, taken.rest.first_text());
                self.inside(levels, want, &taken.rest, inside)
            }
            Opener::Nothing => Err(syntax_on(taken.token.line).into()),
        }
    }
}
