ghost use Rattle.std.specs.Prelude.{◌≡◌, ◌<◌, ◌^◌, IfOk, map, unsigned_abs};
ghost use Rattle.c_syntax.specs.Tree.{stmts_of_list, item};
ghost use Rattle.c_syntax.specs.Plain.{expr_tree, cond_tree, stmt_tree};
ghost use Rattle.emit_row_code.specs.RingCode as code;

use crate::expression::{binary, choice, written};
use crate::leaves::RingFields;
use base_core::{Compare, Memory};
use c_syntax::{BinOp, Cond, Expr, Leaf, Stmt};
use std::alloc::Global;

/// Where the oldest sample lies.
fn place(ring: RingFields) -> Expr
    ensures { expr_tree result ≡ code.place_read ring }
{
    Expr::Read(Leaf::Own(ring.place))
}

/// How many samples were taken.
fn taken(ring: RingFields) -> Expr
    ensures { expr_tree result ≡ code.taken_read ring }
{
    Expr::Read(Leaf::Own(ring.taken))
}

/// Fewer samples were taken than the delay has.
fn is_filling(ring: RingFields, length: u32) -> Cond
    ensures { cond_tree result ≡ code.is_filling_code ring length }
{
    Cond::Compare(Compare::Lt, taken(ring), Expr::Literal(i64::from(length)))
}

/// The item at the place of the oldest sample.
fn item_at_place(alloc: Global, ring: RingFields) -> Result<Expr, Memory>
    ensures { IfOk result (λ e. expr_tree e ≡ item ring.items (code.place_read ring)) }
{
    Ok(Expr::At(ring.items, Box::new(alloc, place(ring))?))
}

/// What a delay of `length` samples remembers from `length` samples before: its start until so many were taken, and then
/// the oldest of its items.
///
/// Fails only when memory runs out.
pub fn oldest_code(alloc: Global, ring: RingFields, length: u32, start: i64) -> Result<Expr, Memory>
    requires { unsigned_abs start < 2 ^ 63 }
    ensures { IfOk result (λ e. expr_tree e ≡ code.oldest_code ring length start) }
{
    let begun = written(alloc, start)?;
    choice(
        alloc,
        is_filling(ring, length),
        begun,
        item_at_place(alloc, ring)?,
    )
}

/// One sample more was taken, until there are as many as the delay has.
fn next_taken(alloc: Global, ring: RingFields, length: u32) -> Result<Expr, Memory>
    ensures { IfOk result (λ e. expr_tree e ≡ code.next_taken_code ring length) }
{
    let more = binary(alloc, BinOp::Add, taken(ring), Expr::Literal(1))?;
    choice(alloc, is_filling(ring, length), more, taken(ring))
}

/// The next place, and the first one after the last.
fn next_place(alloc: Global, ring: RingFields, length: u32) -> Result<Expr, Memory>
    ensures { IfOk result (λ e. expr_tree e ≡ code.next_place_code ring length) }
{
    let next = binary(alloc, BinOp::Add, place(ring), Expr::Literal(1))?;
    binary(alloc, BinOp::Rem, next, Expr::Literal(i64::from(length)))
}

/// A sample takes the place of the oldest one. The item is stored first, since its index reads the place.
pub(crate) fn taken_in(
    alloc: Global,
    ring: RingFields,
    length: u32,
    input: Leaf,
) -> Result<Vec<Stmt>, Memory>
    ensures { IfOk result
        (λ v. stmts_of_list (map stmt_tree v.items) ≡ code.taken_in ring length input) }
{
    let mut stores = Vec::new(alloc);
    stores.push(Stmt::SetAt {
        line: 0,
        field: ring.items,
        index: place(ring),
        value: Expr::Read(input),
    })?;
    stores.push(Stmt::Set {
        line: 0,
        field: ring.taken,
        value: next_taken(alloc, ring, length)?,
    })?;
    stores.push(Stmt::Set {
        line: 0,
        field: ring.place,
        value: next_place(alloc, ring, length)?,
    })?;
    Ok(stores)
}

/// No sample was taken; the items stay.
pub(crate) fn emptied(alloc: Global, ring: RingFields) -> Result<Vec<Stmt>, Memory>
    ensures { IfOk result (λ v. stmts_of_list (map stmt_tree v.items) ≡ code.emptied ring) }
{
    let mut stores = Vec::new(alloc);
    stores.push(Stmt::Set {
        line: 0,
        field: ring.place,
        value: Expr::Literal(0),
    })?;
    stores.push(Stmt::Set {
        line: 0,
        field: ring.taken,
        value: Expr::Literal(0),
    })?;
    Ok(stores)
}
