// Whether two subsystems are the same, row by row.
ghost use Rattle.std.specs.Prelude.{◌≡◌, ◌↔◌, ◌<◌, ◌+◌, ◌-◌, All, Some, length, map, true};
ghost use Rattle.std.specs.List.{AllZip, range_with_len};
ghost use Rattle.diagram_meaning.specs.Diagram.{type_at as type_of_row};
ghost use Rattle.diagram_meaning.specs.ResolvedTree.{diagram_of};
ghost use Rattle.diagram_meaning.specs.Rows.{is_inport_of as is_inport_of_row};
ghost use Rattle.diagram_same.specs.Interiors.{IsInterior};
ghost use Rattle.diagram_same.specs.Compared.{ArePlacedAlike, ComputeAlike, HaveEqualControls};
ghost use Rattle.diagram_same.specs.Same.{AreAlike, AreEqualTimes, AreSame, IsMoved, IsMovedOwner, role_of as role_of_kind};

use crate::interior::Interior;
use crate::reading::{op_at, time_at, type_at};
use crate::role::role_of;
use diagram_blocks::Op;
use diagram_meaning::{Resolved, Row, Time, same_system};

/// Whether the subsystems with these rows inside are the same.
pub(crate) fn are_same(r: &Resolved, a: Interior, b: Interior) -> bool
    requires first { IsInterior r.now.tree.table.rows a.row a.end }
    requires second { IsInterior r.now.tree.table.rows b.row b.end }
    ensures { (result ≡ true) ↔ AreSame (diagram_of r.now) a.row b.row }
{
    a.end - a.row == b.end - b.row && have_equal_controls(r, a.row, b.row) && are_alike(r, a, b)
}

/// Whether two subsystems are controlled alike, by values of the same types.
fn have_equal_controls(r: &Resolved, e: u32, f: u32) -> bool
    requires first { e < length r.now.tree.table.rows }
    requires second { f < length r.now.tree.table.rows }
    ensures { (result ≡ true) ↔ HaveEqualControls (diagram_of r.now) e f }
{
    r.row(e).kind.control() == r.row(f).kind.control()
        && have_equal_types(r, r.row(e).inputs.wires(), r.row(f).inputs.wires())
}

/// Whether two lists of rows have equal types.
fn have_equal_types(r: &Resolved, bs: &[u32], cs: &[u32]) -> bool
    requires first { All (λ b. b < length r.now.tree.table.rows) bs.now }
    requires second { All (λ c. c < length r.now.tree.table.rows) cs.now }
    ensures { (result ≡ true) ↔
        (map (type_of_row r.now.types) bs.now ≡ map (type_of_row r.now.types) cs.now) }
{
    if bs.len() != cs.len() {
        return false;
    }
    for k in 0..bs.len() {
        if !have_equal_type(r, bs[k], cs[k]) {
            return false;
        }
    }
    true
}

/// Whether two rows have equal types.
fn have_equal_type(r: &Resolved, b: u32, c: u32) -> bool
    requires first { b < length r.now.tree.table.rows }
    requires second { c < length r.now.tree.table.rows }
    ensures { (result ≡ true) ↔ (type_of_row r.now.types b ≡ type_of_row r.now.types c) }
{
    type_at(r, b) == type_at(r, c)
}

/// Whether the rows inside two subsystems, as many in both, are the same.
fn are_alike(r: &Resolved, a: Interior, b: Interior) -> bool
    requires first { IsInterior r.now.tree.table.rows a.row a.end }
    requires second { IsInterior r.now.tree.table.rows b.row b.end }
    requires counts { a.end - a.row ≡ b.end - b.row }
    ensures { (result ≡ true) ↔ AllZip (AreAlike (diagram_of r.now) a.row b.row)
        (range_with_len (a.row + 1) (a.end - (a.row + 1)))
        (range_with_len (b.row + 1) (b.end - (b.row + 1))) }
{
    for k in 1..a.end - a.row {
        if !is_alike(r, a.row, b.row, a.row + k, b.row + k) {
            return false;
        }
    }
    true
}

/// Whether row `b` inside `e` and row `c` inside `f` are the same.
fn is_alike(r: &Resolved, e: u32, f: u32, b: u32, c: u32) -> bool
    requires first { b < length r.now.tree.table.rows }
    requires second { c < length r.now.tree.table.rows }
    ensures { (result ≡ true) ↔ AreAlike (diagram_of r.now) e f b c }
{
    computes_alike(r, b, c) && is_placed_alike(r, e, f, b, c)
}

/// Whether two rows compute the same, at the same ticks and in the same role.
fn computes_alike(r: &Resolved, b: u32, c: u32) -> bool
    requires first { b < length r.now.tree.table.rows }
    requires second { c < length r.now.tree.table.rows }
    ensures { (result ≡ true) ↔ ComputeAlike (diagram_of r.now) b c }
{
    are_equal_ops(op_at(r, b), op_at(r, c))
        && have_equal_roles(r.row(b), r.row(c))
        && have_equal_type(r, b, c)
        && are_equal_times(time_at(r, b), time_at(r, c))
}

/// Whether two rows have the same role.
fn have_equal_roles(b: &Row, c: &Row) -> bool
    ensures { (result ≡ true) ↔ (role_of_kind b.now.kind ≡ role_of_kind c.now.kind) }
{
    role_of(&b.kind) == role_of(&c.kind)
}

/// Whether row `b` inside `e` and row `c` inside `f` are in the same subsystem and have the same inputs.
fn is_placed_alike(r: &Resolved, e: u32, f: u32, b: u32, c: u32) -> bool
    requires first { b < length r.now.tree.table.rows }
    requires second { c < length r.now.tree.table.rows }
    ensures { (result ≡ true) ↔ ArePlacedAlike (diagram_of r.now) e f b c }
{
    is_moved_owner(e, f, r.row(b).owner, r.row(c).owner)
        && (is_inport_of(r, e, b)
            || are_moved(e, f, r.row(b).inputs.wires(), r.row(c).inputs.wires()))
}

/// Whether two operations are equal.
fn are_equal_ops(a: Op, b: Op) -> bool
    ensures { (result ≡ true) ↔ (a ≡ b) }
{
    a == b
}

/// Whether two sample times have the same ticks.
fn are_equal_times(a: Time, b: Time) -> bool
    ensures { (result ≡ true) ↔ AreEqualTimes a b }
{
    a.period == b.period && a.offset == b.offset
}

/// Whether the owners of two rows are as far after two subsystems.
fn is_moved_owner(e: u32, f: u32, b: Option<u32>, c: Option<u32>) -> bool
    ensures { (result ≡ true) ↔ IsMovedOwner e f b c }
{
    match (b, c) {
        (None, None) => true,
        (Some(b), Some(c)) => is_moved(e, f, b, c),
        _ => false,
    }
}

/// Whether row `b` is as far after `e` as row `c` after `f`.
fn is_moved(e: u32, f: u32, b: u32, c: u32) -> bool
    ensures { (result ≡ true) ↔ IsMoved e f b c }
{
    b as u64 + f as u64 == c as u64 + e as u64
}

/// Whether the rows of two lists are as far after two subsystems, place by place.
fn are_moved(e: u32, f: u32, bs: &[u32], cs: &[u32]) -> bool
    ensures { (result ≡ true) ↔ AllZip (IsMoved e f) bs.now cs.now }
{
    if bs.len() != cs.len() {
        return false;
    }
    for k in 0..bs.len() {
        if !is_moved(e, f, bs[k], cs[k]) {
            return false;
        }
    }
    true
}

/// Whether row `b` is an Inport of subsystem `e`.
fn is_inport_of(r: &Resolved, e: u32, b: u32) -> bool
    requires { b < length r.now.tree.table.rows }
    ensures { result ≡ is_inport_of_row r.now.tree.table.rows (Some e) b }
{
    r.row(b).kind.is_inport() && same_system(r.row(b).owner, Some(e))
}
