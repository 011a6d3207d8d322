ghost use Rattle.std.specs.Prelude.{◌≡◌, ◌+◌, ◌-◌, ◌^◌, ◌≤◌, ◌<◌, IfOk, length, map};
ghost use Rattle.modules_profile.specs.Headers.{header_functions};
ghost use Rattle.modules_profile.specs.LawfulLocals.{IsChild};
ghost use Rattle.modules_profile.specs.Locals.{own_header};
ghost use Rattle.emit_system_spec.specs.Emittable.{IsEmittable};
ghost use Rattle.emit_system_spec.specs.Fields as field;
ghost use Rattle.emit_system_spec.specs.Groups as groups;
ghost use Rattle.emit_system_spec.specs.Heads as heads;
ghost use Rattle.emit_system_spec.specs.NodeCode as node;
ghost use Rattle.emit_system_spec.specs.Places as places;
ghost use Rattle.emit_system_spec.specs.Sources as sources;
ghost use Rattle.emit_layout.specs.Tables.{HasTables};

use crate::fields::Fields;
use crate::groups::group_nodes;
use crate::params::Params;
use crate::tables::Tables;
use base_core::{Memory, Port};
use base_fixed_point::FixType;
use c_syntax::Leaf;
use emit_row_code::{ControlLeaves, RingFields};
use emit_system_spec::{Place, Source};
use modules_profile::{ChildUse, Local, Profile};
use modules_schedule::Schedule;
use std::alloc::Global;
use std::marker::Model;

/// All that the code of a system names: its fields, the sources of its wires, its nodes, its groups, its children's
/// procedures and the types of its ports. It is seen as the system with its profile and its schedule.
///
/// What it finds by a number it finds in constant expected time.
#[derive(Drop)]
pub struct Layout<'a> {
    fields: Fields<'a>,
    profile: &'a Profile,
    tables: Tables,
}

impl<'a> Model for Layout<'a> {
    ghost use Rattle.emit_layout.specs.Laid.{Laid};
    ghost use Rattle.emit_layout.specs.Tables.{HasTables};

    ghost Value = { Laid };

    ghost view = { λ l. record {
      local = l.fields.local;
      profile = l.profile.now;
      schedule = l.fields.schedule;
    } };

    ghost invariant = { λ l. HasTables
        (record { local = l.fields.local; profile = l.profile.now; schedule = l.fields.schedule })
        l.tables.sources l.tables.nodes.items l.tables.groups.items l.tables.bases.items
        l.tables.ports.items };
}

impl<'a> Layout<'a> {
    /// The layout of a system with these fields, this profile and these tables.
    pub fn new(fields: Fields<'a>, profile: &'a Profile, tables: Tables) -> Layout<'a>
        requires { HasTables
            (record { local = fields.local; profile = profile.now; schedule = fields.schedule })
            tables.sources tables.nodes.items tables.groups.items tables.bases.items
            tables.ports.items }
        ensures { result ≡ record {
          local = fields.entry.local;
          profile = profile.now;
          schedule = fields.entry.schedule;
        } }
    {
        Layout {
            fields,
            profile,
            tables,
        }
    }

    /// The system.
    pub fn local(&self) -> &'a Local
        ensures { result.now ≡ self.now.local }
    {
        self.fields.local()
    }

    /// Its profile.
    pub fn profile(&self) -> &'a Profile
        ensures { result.now ≡ self.now.profile }
    {
        self.profile
    }

    /// Its schedule.
    pub fn schedule(&self) -> &'a Schedule
        ensures { result.now ≡ self.now.schedule }
    {
        self.fields.schedule()
    }

    /// The code of the system can be written: 32 bits number its fields and procedures.
    pub fn is_emittable(&self)
        ensures { IsEmittable self.now.local self.now.schedule }
    {
        self.fields.is_emittable();
    }

    // ---- Fields

    /// The field of the value of row `b`.
    pub fn value_field(&self, b: u32) -> u32
        ensures { result ≡ field.value_field self.now.local b }
    {
        self.fields.value(b)
    }

    /// The field of what row `b` remembers, where that is one sample.
    pub fn memory_field(&self, b: u32) -> u32
        ensures { result ≡ field.memory_field self.now.local b }
    {
        self.fields.memory(b)
    }

    /// The fields of what row `b` remembers, where that is several samples.
    pub fn ring_fields(&self, b: u32) -> RingFields
        ensures { result ≡ node.ring_fields self.now.local b }
    {
        self.fields.ring(b)
    }

    /// The field of what the trigger remembers.
    pub fn trigger_field(&self) -> u32
        ensures { result ≡ field.trigger_field self.now.local }
    {
        self.fields.trigger()
    }

    /// The field of the child at a place; after the last child the counters begin.
    pub fn child_field(&self, place: usize) -> u32
        requires { place ≤ length self.now.local.children }
        ensures { result ≡ field.child_field self.now.local place }
    {
        self.fields.child(place)
    }

    /// The counter of a group, where it has one.
    pub fn counter_field(&self, group: u32) -> Option<u32>
        ensures { result ≡ field.counter_field self.now.local self.now.schedule group }
    {
        self.fields.counter(group)
    }

    /// The groups that have a counter, in the order of the counters.
    pub fn shared_groups(&self) -> &[u32]
        ensures { result.now ≡ field.shared_groups self.now.schedule }
    {
        self.fields.counted()
    }

    // ---- Sources

    /// The source of a wire; the wire of a lawful system has one.
    pub fn source(&self, wire: u32) -> Option<Source>
        ensures { result ≡ sources.source_of self.now.local wire }
    {
        self.tables.sources.of(wire)
    }

    /// What reads a wire.
    pub fn wire_leaf(&self, wire: u32) -> Leaf
        ensures { result ≡ sources.wire_leaf self.now.local wire }
    {
        match self.source(wire) {
            Some(source) => source.leaf,
            None => Leaf::Own(0),
        }
    }

    /// What reads each of some wires.
    ///
    /// Fails only when memory runs out.
    pub fn wire_leaves(&self, alloc: Global, wires: &[u32]) -> Result<Vec<Leaf>, Memory>
        ensures { IfOk result (λ v. v.items ≡ map (sources.wire_leaf self.now.local) wires.now) }
    {
        let mut leaves = Vec::new(alloc);
        for wire in wires {
            leaves.push(self.wire_leaf(*wire))?;
        }
        Ok(leaves)
    }

    /// The types of wires, as far as they have sources.
    ///
    /// Fails only when memory runs out.
    pub fn wire_types(&self, alloc: Global, wires: &[u32]) -> Result<Vec<FixType>, Memory>
        ensures { IfOk result (λ v. v.items ≡ sources.wire_types self.now.local wires.now) }
    {
        let mut types = Vec::new(alloc);
        for wire in wires {
            match self.source(*wire) {
                Some(source) => types.push(source.number)?,
                None => return Ok(types),
            }
        }
        Ok(types)
    }

    // ---- Nodes, groups and procedures

    /// The nodes of the system by their places among its rows and children.
    pub fn node_places(&self) -> &[Place]
        ensures { result.now ≡ places.node_places self.now.local }
    {
        self.tables.nodes.as_slice()
    }

    /// The groups that have nodes: the own procedures begin with those of these groups.
    pub fn code_groups(&self) -> &[u32]
        ensures { result.now ≡ groups.code_groups self.now.schedule }
    {
        self.tables.groups.as_slice()
    }

    /// The nodes of a group.
    pub fn group_nodes(&self, group: u32) -> &'a [u32]
        requires { group < length self.now.schedule.groups }
        ensures { result.now ≡ groups.group_nodes self.now.schedule group }
    {
        group_nodes(self.fields.schedule(), group)
    }

    /// How many procedures are the system's own.
    pub fn own_count(&self) -> u32
        ensures { result ≡ groups.own_count self.now.schedule }
    {
        let schedule = self.fields.schedule();
        (self.tables.groups.len() + schedule.functions.len() + 3) as u32
    }

    /// The number of the first procedure of the child at a place, after the own ones and those of the children before.
    pub fn child_base(&self, place: usize) -> u32
        requires { place ≤ length self.now.local.children }
        ensures { result
            ≡ places.child_base self.now.local (groups.own_count self.now.schedule) place }
    {
        self.tables.bases[place]
    }

    /// The number of the update of the child at a place; its start and its reset follow.
    pub fn update_number(&self, place: usize, child: &ChildUse) -> u32
        requires child { IsChild child.now }
        requires place { place < length self.now.local.children }
        ensures number { result
            ≡ places.child_base self.now.local (groups.own_count self.now.schedule) place
            + length (header_functions child.now.header) }
        ensures small { result < 2 ^ 32 - 2 }
    {
        self.is_emittable();
        self.child_base(place) + child.header.profile.functions.len() as u32
    }

    // ---- Parameters

    /// The inputs of the system by port and then its controls, each with its type.
    pub fn port_types(&self) -> &[(Port, FixType)]
        ensures { result.now ≡ heads.port_types (own_header self.now.local self.now.profile) }
    {
        self.tables.ports.as_slice()
    }

    /// Where the controls are read in a procedure with these parameters, and what the trigger remembers.
    pub fn control_leaves(&self, params: &Params) -> ControlLeaves
        ensures { result ≡ node.control_leaves self.now.local params.now }
    {
        let local = self.fields.local();
        ControlLeaves {
            enable: params.enable_leaf(),
            trigger: params.trigger_leaf(local.control),
            remembers: Leaf::Own(self.fields.trigger()),
        }
    }
}
