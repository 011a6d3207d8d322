ghost use Rattle.std.specs.Prelude.{◌≡◌, ◌<◌, ◌&&◌, not, All, List, None, IfSome, length, slice_get, ℤ};
ghost use Rattle.diagram_activity.specs.declared.TrigMem.{TrigMem};
ghost use Rattle.diagram_activity.specs.Activity.{is_high};
ghost use Rattle.diagram_meaning.specs.Diagram.{Diagram};
ghost use Rattle.diagram_meaning.specs.ResolvedTree.{diagram_of};
ghost use Rattle.diagram_meaning.specs.Rows.{enclosing, is_enabled, system_control as control_of_system};
ghost use Rattle.diagram_meaning.specs.Run as run;

use crate::reading::{hits, row, time};
use base_core::Control;
use diagram_activity::{TrigMem, active, off};
use diagram_meaning::Resolved;

// How a system is controlled; the root is plain.
pub(crate) fn system_control(r: &Resolved, system: Option<u32>) -> Control
    requires { IfSome system (λ e. e < length r.now.tree.table.rows) }
    ensures { result ≡ control_of_system r.now.tree.table.rows system }
{
    match system {
        None => Control::Plain,
        Some(e) => row(r, e as usize).kind.control(),
    }
}

// The value of the wire at a place among some wires, 0 where there is none.
fn value_of_wire(values: &[i64], wires: &[u32], place: usize) -> i64
    requires { All (λ c. c < length values.now) wires.now }
    ensures { (d : Diagram) (x : List ℤ) (g : List TrigMem) →
        result ≡ run.wire_value d None x values.now g (slice_get wires.now place) }
{
    match wires.get(place) {
        Some(wire) => values[*wire as usize],
        None => 0,
    }
}

// The value of the enable of subsystem `e`, 0 where it has none.
fn enable_value(r: &Resolved, values: &[i64], e: usize) -> i64
    requires values { length values.now ≡ length r.now.tree.table.rows }
    requires subsystem { e < length r.now.tree.table.rows }
    ensures { (x : List ℤ) (g : List TrigMem) →
        result ≡ run.enable_value (diagram_of r.now) None x values.now g e }
{
    let subsystem = row(r, e);
    match subsystem.kind.control() {
        Control::Plain | Control::Triggered(_) => 0,
        Control::Enabled { .. } | Control::Both { .. } => {
            value_of_wire(values, subsystem.inputs.wires(), 0)
        }
    }
}

// The value of the trigger of subsystem `e`, 0 where it has none.
pub(crate) fn trigger_value(r: &Resolved, values: &[i64], e: usize) -> i64
    requires values { length values.now ≡ length r.now.tree.table.rows }
    requires subsystem { e < length r.now.tree.table.rows }
    ensures { (x : List ℤ) (g : List TrigMem) →
        result ≡ run.trigger_value (diagram_of r.now) None x values.now g e }
{
    let subsystem = row(r, e);
    let wires = subsystem.inputs.wires();
    match subsystem.kind.control() {
        Control::Plain | Control::Enabled { .. } => 0,
        Control::Triggered(_) => value_of_wire(values, wires, 0),
        Control::Both { .. } => value_of_wire(values, wires, 1),
    }
}

// Whether a system is active: each subsystem around its rows is, inside the next.
pub(crate) fn is_active(
    r: &Resolved,
    triggers: &[TrigMem],
    values: &[i64],
    system: Option<u32>,
) -> bool
    requires triggers { length triggers.now ≡ length r.now.tree.table.rows }
    requires values { length values.now ≡ length r.now.tree.table.rows }
    requires system { IfSome system (λ e. e < length r.now.tree.table.rows) }
    ensures { (x : List ℤ) →
        result ≡ run.active_in (diagram_of r.now) None x values.now triggers.now
        (enclosing r.now.tree.table.rows None system) }
{
    match system {
        None => true,
        Some(e) => {
            let subsystem = row(r, e as usize);
            let outside = is_active(r, triggers, values, subsystem.owner);
            let enable = enable_value(r, values, e as usize);
            let trigger = trigger_value(r, values, e as usize);
            active(
                outside,
                &subsystem.kind.control(),
                triggers[e as usize],
                enable,
                trigger,
            )
        }
    }
}

// Whether a system is off, so that its states are reset: one of the subsystems around its rows is.
pub(crate) fn is_off(
    r: &Resolved,
    triggers: &[TrigMem],
    values: &[i64],
    system: Option<u32>,
) -> bool
    requires triggers { length triggers.now ≡ length r.now.tree.table.rows }
    requires values { length values.now ≡ length r.now.tree.table.rows }
    requires system { IfSome system (λ e. e < length r.now.tree.table.rows) }
    ensures { (x : List ℤ) →
        result ≡ run.any_off (diagram_of r.now) None x values.now triggers.now
        (enclosing r.now.tree.table.rows None system) }
{
    match system {
        None => false,
        Some(e) => {
            let subsystem = row(r, e as usize);
            let outside = is_active(r, triggers, values, subsystem.owner);
            let enable = enable_value(r, values, e as usize);
            let is_off_outside = is_off(r, triggers, values, subsystem.owner);
            off(outside, &subsystem.kind.control(), enable) || is_off_outside
        }
    }
}

// Whether a system is a subsystem with an enable that is disabled by it now, inside an active system.
pub(crate) fn is_disabled(
    r: &Resolved,
    triggers: &[TrigMem],
    values: &[i64],
    system: Option<u32>,
) -> bool
    requires triggers { length triggers.now ≡ length r.now.tree.table.rows }
    requires values { length values.now ≡ length r.now.tree.table.rows }
    requires system { IfSome system (λ e. e < length r.now.tree.table.rows) }
    ensures { (x : List ℤ) →
        result ≡ run.is_disabled (diagram_of r.now) None x values.now triggers.now
        (enclosing r.now.tree.table.rows None system) }
{
    match system {
        None => false,
        Some(e) => {
            let subsystem = row(r, e as usize);
            let outside = is_active(r, triggers, values, subsystem.owner);
            let enable = enable_value(r, values, e as usize);
            disables(outside, &subsystem.kind.control(), enable)
        }
    }
}

// Whether an enable disables the subsystem that it controls, given whether the system around it is active.
fn disables(outside: bool, control: &Control, enable: i64) -> bool
    ensures { result ≡ (is_enabled control.now && (outside && not (is_high enable))) }
{
    match control {
        Control::Plain | Control::Triggered(_) => false,
        Control::Enabled { .. } | Control::Both { .. } => outside && enable <= 0,
    }
}

// Whether row `b` runs at a tick.
pub(crate) fn runs(
    r: &Resolved,
    tick: usize,
    triggers: &[TrigMem],
    values: &[i64],
    b: usize,
) -> bool
    requires triggers { length triggers.now ≡ length r.now.tree.table.rows }
    requires values { length values.now ≡ length r.now.tree.table.rows }
    requires row { b < length r.now.tree.table.rows }
    ensures { (x : List ℤ) →
        result ≡ run.runs (diagram_of r.now) None x values.now triggers.now tick b }
{
    is_active(r, triggers, values, row(r, b).owner) && hits(time(r, b), tick)
}
