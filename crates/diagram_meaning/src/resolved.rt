use crate::subsystem::Tree;
use crate::times::Times;
use base_core::Memory;
use base_fixed_point::FixType;
use base_refusals::Refusal;
use diagram_blocks::Op;
use std::marker::Model;

/// A tree with the type, the operation and the sample time of each row.
#[derive(Drop)]
pub struct Resolved {
    /// The table with its subsystems.
    pub tree: Tree,
    /// The type of each row; boolean where it has no value.
    pub types: Vec<FixType>,
    /// What each row computes.
    pub ops: Vec<Op>,
    /// The sample times.
    pub times: Times,
}

impl Model for Resolved {
    ghost use Rattle.diagram_meaning.specs.ResolvedTree.{ResolvedTree, IsResolvedTree};
    ghost use Rattle.diagram_meaning.specs.contracts.subsystem.Subsystem as subsystem;
    ghost use Rattle.std.specs.Coded.{codes};

    ghost Value = { ResolvedTree };

    ghost coded = { Prim.hlevel (codes, subsystem.the_row.coded) };

    ghost view = { λ r. record {
      tree = r.tree;
      types = r.types.items;
      ops = r.ops.items;
      times = r.times;
    } };

    ghost invariant = { λ r. IsResolvedTree (record {
      tree = r.tree;
      types = r.types.items;
      ops = r.ops.items;
      times = r.times;
    }) };
}

/// Why a model has no diagram: it is refused, or there was no memory.
#[derive(Debug, Drop)]
pub enum BuildFault {
    /// The first refusal.
    Refused(Refusal),
    /// Out of memory.
    Memory,
}

impl From<Memory> for BuildFault {
    ghost use Rattle.std.specs.Prelude.{◌≡◌};
    ghost use Rattle.diagram_meaning.specs.declared.resolved.BuildFault.TheVariants as fault;

    ghost from_gives = { λ _ given. given ≡ fault.Memory };

    fn from(_memory: Memory) -> BuildFault {
        BuildFault::Memory
    }
}
