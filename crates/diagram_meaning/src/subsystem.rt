ghost use Rattle.std.specs.Prelude.{◌≡◌};
ghost use Rattle.diagram_meaning.specs.DiagramTree.{IsDiagram};

use crate::table::Table;
use base_core::{Control, Wires};
use std::marker::Model;

/// A system: its own rows in the order of the file, and the subsystems directly inside it.
#[derive(Drop)]
pub struct Subsystem {
    /// The row of the SubSystem block; none for the root.
    pub row: Option<u32>,
    /// The line of that block, or of the root's System.
    pub line: u32,
    /// How it is controlled.
    pub control: Control,
    /// The numbers of its own rows, in the order of the file.
    pub own: Wires,
    /// The subsystems directly inside it, in that order.
    pub children: Vec<Subsystem>,
}

/// A table with its nested subsystems.
#[derive(Drop)]
pub struct Tree {
    table: Table,
    root: Subsystem,
}

impl Model for Tree {
    ghost use Rattle.diagram_meaning.specs.DiagramTree.{DiagramTree, IsDiagram};
    ghost use Rattle.diagram_meaning.specs.contracts.subsystem.Subsystem as subsystem;
    ghost use Rattle.std.specs.Coded.{codes};

    ghost Value = { DiagramTree };

    ghost coded = { Prim.hlevel (codes, subsystem.the_row.coded) };

    ghost view = { λ t. record { table = t.table; root = t.root } };

    ghost invariant = { λ t. IsDiagram (record { table = t.table; root = t.root }) };
}

impl Tree {
    /// A table with its nested subsystems, which agree with it.
    pub fn new(table: Table, root: Subsystem) -> Tree
        requires { IsDiagram (record { table = table; root = root }) }
        ensures { result ≡ record { table = table; root = root } }
    {
        Tree { table, root }
    }

    /// The table.
    pub fn table(&self) -> &Table
        ensures table { result.now ≡ self.now.table }
        ensures diagram { IsDiagram self.now }
    {
        &self.table
    }

    /// The system of the root.
    pub fn root(&self) -> &Subsystem
        ensures root { result.now ≡ self.now.root }
        ensures diagram { IsDiagram self.now }
    {
        &self.root
    }
}
