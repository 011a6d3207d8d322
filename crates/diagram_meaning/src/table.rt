use base_core::{Frac, Place, TimeText, Wires};
use base_fixed_point::TypeText;
use diagram_blocks::Kind;
use std::marker::Model;

/// One block of a model. `owner` is the subsystem row around it, and `inputs` are the rows that its inputs read.
#[derive(Drop)]
pub struct Row {
    /// Its number and its line.
    pub place: Place,
    /// The row of the subsystem around it; none in the root.
    pub owner: Option<u32>,
    /// What it is, with its parameters.
    pub kind: Kind,
    /// The rows that its inputs read, by port; of a subsystem those of its controls, the enable first.
    pub inputs: Wires,
    /// What it writes of its type.
    pub type_text: TypeText,
    /// What it writes of its sample time.
    pub time_text: TimeText,
}

/// All blocks of a model, in the order of the file, and its written step.
#[derive(Drop)]
pub struct Table {
    /// The blocks, each before those inside it.
    pub rows: Vec<Row>,
    /// The step that the model writes, in seconds, where it is a positive fraction.
    pub fixed_step: Option<Frac>,
}

impl Model for Table {
    ghost use Rattle.diagram_meaning.specs.RowTable.{RowTable};

    ghost Value = { RowTable };

    ghost view = { λ t. record { rows = t.rows.items; fixed_step = t.fixed_step } };
}
