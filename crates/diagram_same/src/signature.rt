// A number by which subsystems that aren't the same mostly differ.
ghost use Rattle.std.specs.Prelude.{◌≡◌, ◌≤◌, ◌<◌, ◌+◌, ◌^◌, length};
ghost use Rattle.diagram_meaning.specs.ResolvedTree.{diagram_of};
ghost use Rattle.diagram_same.specs.Interiors.{IsInterior};
ghost use Rattle.diagram_same.specs.Signatures as signatures;

use crate::interior::Interior;
use crate::reading::{op_at, type_at};
use diagram_blocks::Op;
use diagram_meaning::Resolved;

/// The signature of the subsystem with these rows inside.
pub(crate) fn signature_of(r: &Resolved, inside: Interior) -> u64
    requires { IsInterior r.now.tree.table.rows inside.row inside.end }
    ensures { result ≡ signatures.signature_of (diagram_of r.now) inside.row }
{
    let mut sum = 1;
    for b in inside.row + 1..inside.end {
        sum = mixed(sum, row_number(r, b));
    }
    sum
}

/// One number more.
fn mixed(sum: u64, number: u64) -> u64
    requires sum { sum < 2147483647 }
    requires number { number ≤ 2 ^ 63 + 255 }
    ensures next { result ≡ signatures.mixed sum number }
    ensures below { result < 2147483647 }
{
    (sum * 1_000_003 + number) % 2_147_483_647
}

/// The number of row `b`.
fn row_number(r: &Resolved, b: u32) -> u64
    requires { b < length r.now.tree.table.rows }
    ensures number { result ≡ signatures.row_number (diagram_of r.now) b }
    ensures bound { result ≤ 2 ^ 63 + 255 }
{
    op_number(op_at(r, b)) + type_at(r, b).bits as u64
}

/// The constant of an operation, or a number of its own.
fn op_number(op: Op) -> u64
    ensures number { result ≡ signatures.op_number op }
    ensures bound { result ≤ 2 ^ 63 }
{
    match op {
        Op::Copy => 1,
        Op::Value(value) => value.unsigned_abs(),
        Op::Delay(start) => start.unsigned_abs(),
        Op::Line { length, .. } => length as u64,
        Op::Gain { m, .. } => m.unsigned_abs(),
        Op::Sum { minus, .. } => minus as u64,
        Op::Product { count, .. } => count as u64,
        Op::Switch { threshold, .. } => threshold.unsigned_abs(),
        Op::Relational { .. } => 2,
        Op::Logic { count, .. } => count as u64,
        Op::Convert { frac, .. } => frac as u64,
        Op::Nothing => 3,
    }
}
