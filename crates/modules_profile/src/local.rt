ghost use Rattle.std.specs.Prelude.{◌≡◌, Some, IfOk, map};
ghost use Rattle.diagram_meaning.specs.Nested.{Agrees, row_of, system_of};
ghost use Rattle.diagram_meaning.specs.ResolvedTree.{diagram_of};
ghost use Rattle.diagram_meaning.specs.Rows.{subsystems_of};
ghost use Rattle.modules_profile.specs.Locals.{local_of as local_of_system};
ghost use Rattle.modules_profile.specs.Systems.{IsInTable};

use crate::children::{child_uses, control_wires};
use crate::local_rows::{local_rows, types_of};
use crate::profile::Profile;
use crate::system::{control, own, row};
use base_core::{Control, Memory, Wires};
use base_fixed_point::FixType;
use diagram_blocks::{Kind, Op};
use diagram_meaning::{Resolved, Subsystem, Time};
use std::alloc::Global;
use std::marker::Model;

/// A system as the system around it sees it. Inputs and outputs go by port, controls enable before trigger; an
/// output has its Outport row.
#[derive(Drop)]
pub struct Header {
    /// Its subsystem row; none for the root.
    pub row: Option<u32>,
    /// How it is controlled.
    pub control: Control,
    /// The types of its inputs.
    pub inputs: Vec<FixType>,
    /// The types of its controls.
    pub controls: Vec<FixType>,
    /// Its outputs, each with its Outport row and its type.
    pub outputs: Vec<(u32, FixType)>,
    /// Its output functions.
    pub profile: Profile,
}

impl Model for Header {
    ghost use Rattle.modules_profile.specs.SystemHeader.{SystemHeader};

    ghost Value = { SystemHeader };

    ghost view = { λ h. record {
      row = h.row;
      control = h.control;
      inputs = h.inputs.items;
      controls = h.controls.items;
      outputs = h.outputs.items;
      profile = h.profile;
    } };
}

/// A child with the wires that enter its ports and its controls.
#[derive(Drop)]
pub struct ChildUse {
    /// The child as the system around it sees it.
    pub header: Header,
    /// The rows that its inputs read, by port.
    pub wires: Wires,
    /// The rows that its controls read, the enable first.
    pub controls: Wires,
}

/// A row of a system with all that its code is made from. For an Inport `inputs` is empty.
#[derive(Drop)]
pub struct LocalRow {
    /// Its number in the table.
    pub row: u32,
    /// What it is, with its parameters.
    pub kind: Kind,
    /// The rows that its inputs read, by port.
    pub inputs: Wires,
    /// What it computes.
    pub op: Op,
    /// The type of its value.
    pub out: FixType,
    /// Its sample time, in base ticks.
    pub time: Time,
    /// Whether it is a RateTransition that delays.
    pub delays: bool,
}

/// A system by its own rows, in the order of the file, and its children, in theirs.
#[derive(Drop)]
pub struct Local {
    /// Its subsystem row; none for the root.
    pub row: Option<u32>,
    /// How it is controlled.
    pub control: Control,
    /// The types of its controls, the enable first.
    pub controls: Vec<FixType>,
    /// Its own rows, those of its children not among them.
    pub rows: Vec<LocalRow>,
    /// The systems directly inside it.
    pub children: Vec<ChildUse>,
}

impl Model for Local {
    ghost use Rattle.modules_profile.specs.LocalSystem.{LocalSystem};

    ghost Value = { LocalSystem };

    ghost view = { λ s. record {
      row = s.row;
      control = s.control;
      controls = s.controls.items;
      rows = s.rows.items;
      children = s.children.items;
    } };
}

/// The system `s` of a resolved tree by its own rows, where its children have these headers, in order.
///
/// In time linear in the rows of the system and in the rows and the headers of its children.
pub fn local_of(
    alloc: Global,
    r: &Resolved,
    s: &Subsystem,
    headers: &[Header],
) -> Result<Local, Memory>
    requires system { Agrees r.now.tree.table.rows (system_of s.now) }
    requires headers { map (λ h. h.row) headers.now
        ≡ map Some (subsystems_of r.now.tree.table.rows (row_of (system_of s.now))) }
    requires inside { IsInTable r.now.tree.table.rows (row_of (system_of s.now)) }
    ensures { IfOk result (λ local. local
        ≡ local_of_system (diagram_of r.now) r.now.times.delays
        (row_of (system_of s.now)) headers.now) }
{
    let control_row = control_wires(alloc, r, row(s))?;
    Ok(Local {
        row: row(s),
        control: control(s),
        controls: types_of(alloc, r, control_row.wires())?,
        rows: local_rows(alloc, r, own(s))?,
        children: child_uses(alloc, r, s, headers)?,
    })
}
