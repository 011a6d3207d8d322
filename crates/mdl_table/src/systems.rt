ghost use Rattle.std.specs.Prelude.{◌≡◌, IfOk};
ghost use Rattle.diagram_meaning.specs.Nested as nested;
ghost use Rattle.diagram_meaning.specs.Rows.{system_control};
ghost use Rattle.mdl_systems.specs.Systems as text;
ghost use Rattle.mdl_table.specs.Nesting.{AreShort, IsShort, SystemIsShort, nested_by};

use base_core::{Control, Memory, Wires};
use diagram_blocks::Kind;
use diagram_meaning::{Row, Subsystem};
use mdl_systems::SystemText;
use std::alloc::Global;

/// How the system of a row is controlled; the root is plain.
fn control_of(rows: &[Row], row: Option<usize>) -> Control
    ensures { result ≡ system_control rows.now row }
{
    let Some(row) = row else {
        return Control::Plain;
    };
    match rows.get(row) {
        Some(row) => match row.kind {
            Kind::SubSystem(control) => control,
            _ => Control::Plain,
        },
        None => Control::Plain,
    }
}

/// These numbers of rows.
fn wires_of(alloc: Global, numbers: &[usize]) -> Result<Wires, Memory>
    requires { AreShort numbers.now }
    ensures { IfOk result (λ w. w ≡ numbers.now) }
{
    let mut wires = Vec::with_capacity(alloc, numbers.len())?;
    for number in numbers {
        wires.push(*number as u32)?;
    }
    Ok(Wires::new(wires))
}

/// The number of a row in 32 bits.
fn narrow(row: Option<usize>) -> Option<u32>
    requires { IsShort row }
    ensures { result ≡ row }
{
    match row {
        Some(row) => Some(row as u32),
        None => None,
    }
}

/// A system of a text with those inside it, each controlled as its row is.
pub(crate) fn subsystem_of(
    alloc: Global,
    rows: &[Row],
    system: &SystemText,
) -> Result<Subsystem, Memory>
    requires { SystemIsShort (text.system_of system.now) }
    ensures { IfOk result (λ s. nested.system_of s
        ≡ nested_by rows.now (text.system_of system.now)) }
{
    let mut children = Vec::with_capacity(alloc, system.children.len())?;
    for child in system.children.as_slice() {
        children.push(subsystem_of(alloc, rows, child)?)?;
    }
    Ok(Subsystem {
        row: narrow(system.row),
        line: system.line,
        control: control_of(rows, system.row),
        own: wires_of(alloc, system.own.as_slice())?,
        children,
    })
}
