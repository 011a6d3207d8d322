ghost use Rattle.std.specs.Prelude.{◌≡◌, ◌≤◌, IfOk, length, map};
ghost use Rattle.c_syntax.specs.Plain.{expr_tree};
ghost use Rattle.c_syntax.specs.Tree as tree;
ghost use Rattle.diagram_blocks.specs.Value.{greatest_in};
ghost use Rattle.emit_row_code.specs.RowCode as code;

use crate::balanced::balanced_expr;
use crate::conversion::aligned;
use crate::expression::negative;
use base_core::Memory;
use c_syntax::{BinOp, Expr, Leaf};
use diagram_blocks::greatest_frac;
use std::alloc::Global;

/// A term with its sign.
fn signed(alloc: Global, minus: bool, e: Expr) -> Result<Expr, Memory>
    ensures { IfOk result (λ s. expr_tree s ≡ code.signed minus (expr_tree e)) }
{
    if minus { negative(alloc, e) } else { Ok(e) }
}

/// The terms of a sum in units of 2^-common, where these are as fine as those of each input; bit i of `minus` subtracts
/// input i + 1.
fn terms(
    alloc: Global,
    minus: u32,
    common: u8,
    fracs: &[u8],
    inputs: &[Leaf],
) -> Result<Vec<Expr>, Memory>
    requires few { length fracs.now ≤ 16 }
    requires finest { greatest_in fracs.now ≤ common }
    requires unit { common ≤ 31 }
    ensures { IfOk result
        (λ v. map expr_tree v.items ≡ code.term_codes minus common 0 fracs.now inputs.now) }
{
    let mut terms = Vec::new(alloc);
    for (i, frac) in fracs.iter().enumerate() {
        let Some(leaf) = inputs.get(i) else {
            return Ok(terms);
        };
        let term = aligned(
            alloc,
            Expr::Read(*leaf),
            u32::from(*frac),
            u32::from(common),
        )?;
        terms.push(signed(alloc, (minus >> i) & 1 == 1, term)?)?;
    }
    Ok(terms)
}

/// The exact sum of inputs of so many fraction bits, in the finest of their units; bit i of `minus` subtracts input i + 1.
pub(crate) fn sum(alloc: Global, minus: u32, fracs: &[u8], inputs: &[Leaf]) -> Result<Expr, Memory>
    requires few { length fracs.now ≤ 16 }
    requires unit { greatest_in fracs.now ≤ 31 }
    ensures { IfOk result
        (λ e. expr_tree e ≡ code.sum_code minus (greatest_in fracs.now) fracs.now inputs.now) }
{
    let terms = terms(alloc, minus, greatest_frac(fracs), fracs, inputs)?;
    balanced_expr(alloc, BinOp::Add, Expr::Literal(0), terms)
}

/// What leaves read.
pub(crate) fn reads(alloc: Global, leaves: &[Leaf]) -> Result<Vec<Expr>, Memory>
    ensures { IfOk result (λ v. map expr_tree v.items ≡ map tree.read leaves.now) }
{
    let mut reads = Vec::new(alloc);
    for leaf in leaves {
        reads.push(Expr::Read(*leaf))?;
    }
    Ok(reads)
}

/// The exact product of all inputs.
pub(crate) fn product(alloc: Global, inputs: &[Leaf]) -> Result<Expr, Memory>
    ensures { IfOk result (λ e. expr_tree e ≡ code.product_code inputs.now) }
{
    balanced_expr(alloc, BinOp::Mul, Expr::Literal(1), reads(alloc, inputs)?)
}
