ghost use Rattle.std.specs.Prelude.{◌≡◌, ◌<◌, ◌^◌, IfOk, OnOk, length, map, option_map};
ghost use Rattle.mdl_blocks.specs.Held.{kind_text};
ghost use Rattle.mdl_rows.specs.Interiors as inside;
ghost use Rattle.mdl_rows.specs.Held.{AreBlocks, AreGroupsOf, AreInteriorsOf, IsInteriorOf, all_seen, outports_among, port_among, port_of, port_seen, seen};

use crate::blocks::NumberedBlock;
use crate::groups::Groups;
use crate::lists::push_if_there;
use base_core::{Control, Edge, Memory};
use mdl_blocks::BlockKind;
use mdl_wiring::Inside;
use std::alloc::Global;

/// An Outport: its port, from 1, and the number of its block.
#[derive(Clone, Copy, Debug, PartialEq, Eq, Drop)]
pub(crate) struct PortRow {
    pub port: u32,
    pub number: u32,
}

/// What the port blocks inside a block say of it: how many there are, how it is controlled, and where its outputs are.
#[derive(Drop)]
pub(crate) struct Interior {
    pub inside: Inside,
    pub control: Control,
    pub outports: Vec<PortRow>,
}

/// The port of an Inport.
fn inport_number(kind: &BlockKind) -> Option<u32>
    ensures { result ≡ inside.inport_number (kind_text kind.now) }
{
    match kind {
        BlockKind::Inport { port } => Some(*port),
        _ => None,
    }
}

/// The port of an Outport.
fn outport_number(kind: &BlockKind) -> Option<u32>
    ensures { result ≡ inside.outport_number (kind_text kind.now) }
{
    match kind {
        BlockKind::Outport { port, .. } => Some(*port),
        _ => None,
    }
}

/// Whether an EnablePort resets the states.
fn states_reset(kind: &BlockKind) -> Option<bool>
    ensures { result ≡ inside.states_reset (kind_text kind.now) }
{
    match kind {
        BlockKind::EnablePort { reset } => Some(*reset),
        _ => None,
    }
}

/// What a TriggerPort waits for.
fn edge_waited(kind: &BlockKind) -> Option<Edge>
    ensures { result ≡ inside.edge_waited (kind_text kind.now) }
{
    match kind {
        BlockKind::TriggerPort(edge) => Some(*edge),
        _ => None,
    }
}

/// How many of these blocks are Inports.
fn inports_among(own: &[NumberedBlock]) -> u32
    requires { length own.now < 2 ^ 32 }
    ensures { result ≡ inside.count_that inside.inport_number (all_seen own.now) }
{
    let mut count = 0;
    for block in own {
        if inport_number(&block.block.body.kind).is_some() {
            count += 1;
        }
    }
    count
}

/// A block as an Outport, if it is one.
fn port_row(block: &NumberedBlock) -> Option<PortRow>
    ensures { option_map port_seen result ≡ port_of (seen block.now) }
{
    match outport_number(&block.block.body.kind) {
        Some(port) => Some(PortRow {
            port,
            number: block.number,
        }),
        None => None,
    }
}

/// The Outports among these blocks.
fn outports_among(alloc: Global, own: &[NumberedBlock]) -> Result<Vec<PortRow>, Memory>
    ensures { IfOk result (λ v. map port_seen v.items ≡ outports_among (all_seen own.now)) }
{
    let mut outports = Vec::new(alloc);
    for block in own {
        push_if_there(&mut outports, port_row(block))?;
    }
    Ok(outports)
}

/// Whether the first EnablePort among these blocks resets the states.
fn reset_among(own: &[NumberedBlock]) -> Option<bool>
    ensures { result ≡ inside.first_that inside.states_reset (all_seen own.now) }
{
    for block in own {
        if let Some(reset) = states_reset(&block.block.body.kind) {
            return Some(reset);
        }
    }
    None
}

/// What the first TriggerPort among these blocks waits for.
fn edge_among(own: &[NumberedBlock]) -> Option<Edge>
    ensures { result ≡ inside.first_that inside.edge_waited (all_seen own.now) }
{
    for block in own {
        if let Some(edge) = edge_waited(&block.block.body.kind) {
            return Some(edge);
        }
    }
    None
}

/// A control by whether an enable resets the states, if there is one, and what a trigger waits for, if there is one.
fn control_by(reset: Option<bool>, edge: Option<Edge>) -> Control
    ensures { result ≡ inside.control_by reset edge }
{
    match (reset, edge) {
        (None, None) => Control::Plain,
        (Some(reset), None) => Control::Enabled { reset },
        (None, Some(edge)) => Control::Triggered(edge),
        (Some(reset), Some(edge)) => Control::Both { reset, edge },
    }
}

/// What is inside a block with these blocks.
fn interior_of(alloc: Global, own: &[NumberedBlock]) -> Result<Interior, Memory>
    requires { length own.now < 2 ^ 32 }
    ensures { IfOk result (IsInteriorOf (all_seen own.now)) }
{
    let outports = outports_among(alloc, own)?;
    let reset = reset_among(own);
    let edge = edge_among(own);
    Ok(Interior {
        inside: Inside {
            inports: inports_among(own),
            outports: outports.as_slice().len() as u32,
            enable: reset.is_some(),
            trigger: edge.is_some(),
        },
        control: control_by(reset, edge),
        outports,
    })
}

/// What is inside each block.
pub(crate) fn interiors_of(
    alloc: Global,
    groups: &Groups,
    blocks: &[NumberedBlock],
) -> Result<Vec<Interior>, Memory>
    requires blocks { AreBlocks (all_seen blocks.now) }
    requires groups { AreGroupsOf (all_seen blocks.now) groups.now }
    requires at_most { length blocks.now < 2 ^ 32 }
    ensures { IfOk result (λ v. AreInteriorsOf (all_seen blocks.now) v.items) }
{
    let mut interiors = Vec::with_capacity(alloc, blocks.len())?;
    for block in blocks {
        interiors.push(interior_of(alloc, groups.of(Some(block.number)))?)?;
    }
    Ok(interiors)
}

impl Interior {
    /// The number of the first Outport with this port.
    pub(crate) fn outport(&self, port: u32) -> Option<u32>
        ensures { result ≡ port_among port (map port_seen self.now.outports.items) }
    {
        for row in self.outports.as_slice() {
            if row.port == port {
                return Some(row.number);
            }
        }
        None
    }
}
