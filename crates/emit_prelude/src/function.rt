ghost use Rattle.std.specs.Prelude.{◌≡◌, IfOk, map};
ghost use Rattle.c_syntax.specs.Plain.{expr_tree, pure_tree};
ghost use Rattle.emit_prelude.specs.Functions.{name_of, params_of, body_of, tree_of};

use crate::bodies::{
    away_body, ceiling_body, clamp_body, even_body, floor_body, nearest_body, wrap_body, zero_body,
};
use base_core::{Memory, Text};
use c_syntax::{Expr, Pure};
use std::alloc::Global;

/// One of the eight functions: six that round a quotient, and two that bring a number into a range.
#[derive(Clone, Copy, Drop)]
pub(crate) enum Function {
    Floor,
    Ceiling,
    Zero,
    Nearest,
    Away,
    Even,
    Clamp,
    Wrap,
}

/// Texts of their own.
fn texts(alloc: Global, words: &[&[u8]]) -> Result<Vec<Text>, Memory>
    ensures { IfOk result (λ ts. ts.items ≡ map (λ word. word.now) words.now) }
{
    let mut texts = Vec::new(alloc);
    for word in words {
        texts.push(Text::copy_of(alloc, word)?)?;
    }
    Ok(texts)
}

impl Function {
    fn name(self) -> &'static [u8]
        ensures { result.now ≡ name_of self }
    {
        match self {
            Function::Floor => b"round_floor",
            Function::Ceiling => b"round_ceiling",
            Function::Zero => b"round_zero",
            Function::Nearest => b"round_nearest",
            Function::Away => b"round_away",
            Function::Even => b"round_even",
            Function::Clamp => b"clamp",
            Function::Wrap => b"wrap",
        }
    }

    // A number and its divisor, or a number and the range that it is brought into.
    fn params(self) -> &'static [&'static [u8]]
        ensures { map (λ param. param.now) result.now ≡ params_of self }
    {
        match self {
            Function::Clamp => &[b"v", b"lo", b"hi"],
            Function::Wrap => &[b"v", b"lo", b"n"],
            _ => &[b"v", b"d"],
        }
    }

    fn body(self, alloc: Global) -> Result<Box<Expr>, Memory>
        ensures { IfOk result (λ e. expr_tree e.value ≡ body_of self) }
    {
        match self {
            Function::Floor => floor_body(alloc),
            Function::Ceiling => ceiling_body(alloc),
            Function::Zero => zero_body(alloc),
            Function::Nearest => nearest_body(alloc),
            Function::Away => away_body(alloc),
            Function::Even => even_body(alloc),
            Function::Clamp => clamp_body(alloc),
            Function::Wrap => wrap_body(alloc),
        }
    }

    /// The function as it is emitted; its line is left to the printer.
    pub(crate) fn definition(self, alloc: Global) -> Result<Pure, Memory>
        ensures { IfOk result (λ p. pure_tree p ≡ tree_of self) }
    {
        let name = Text::copy_of(alloc, self.name())?;
        let params = texts(alloc, self.params())?;
        let body = self.body(alloc)?;
        Ok(Pure {
            name,
            params,
            body: Box::into_inner(body),
            line: 0,
        })
    }
}
