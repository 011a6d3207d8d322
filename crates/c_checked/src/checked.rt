ghost use Rattle.std.specs.Prelude.{◌≡◌, Option};
ghost use Rattle.c_syntax.specs.Plain.{program_tree};

use crate::places::procedure_named;
use base_fixed_point::FixType;
use c_syntax::Program;
use std::marker::Model;

/// A program that was read: it keeps the static rules and the limits. It is seen as the program, the types of the numbers
/// that a tick takes, and the number of its outputs y1, y2 and so on.
#[derive(Drop)]
pub struct Checked {
    program: Program,
    inputs: Vec<FixType>,
    outputs: u32,
}

impl Model for Checked {
    ghost use Rattle.c_syntax.specs.contracts.code.Expr as expression;
    ghost use Rattle.c_syntax.specs.contracts.code.Stmt as statement;
    ghost use Rattle.std.specs.Coded.{codes};
    ghost use Rattle.c_checked.specs.Checked.{CheckedProgram, IsChecked};

    ghost Value = { CheckedProgram };

    ghost coded = { Prim.hlevel (codes, expression.the_row.coded, statement.the_row.coded) };

    ghost view = { λ c. record { program = c.program; inputs = c.inputs.items; outputs = c.outputs } };

    ghost invariant = { λ c. IsChecked
        (record { program = c.program; inputs = c.inputs.items; outputs = c.outputs }) };
}

impl Checked {
    ghost use Rattle.std.specs.Prelude.{Option};
    ghost use Rattle.c_syntax.specs.RootFields.{procedure_named};
    ghost use Rattle.c_checked.specs.Checked.{IsChecked};

    /// A program that was checked, with what its root takes and gives.
    pub fn new(program: Program, inputs: Vec<FixType>, outputs: u32) -> Checked
        requires { IsChecked (record { program = program; inputs = inputs.items; outputs = outputs }) }
        ensures { result ≡ record { program = program; inputs = inputs.items; outputs = outputs } }
    {
        Checked {
            program,
            inputs,
            outputs,
        }
    }

    /// The position of the procedure of a name; none exactly where no procedure has it.
    pub fn procedure(&self, name: &[u8]) -> Option<u32>
        ensures { result ≡ procedure_named (program_tree self.now.program) name.now }
    {
        procedure_named(&self.program, name)
    }

    /// The program.
    pub fn program(&self) -> &Program
        ensures { result.now ≡ self.now.program }
    {
        &self.program
    }

    /// The types of the numbers that `root_step` takes, in order.
    pub fn inputs(&self) -> &[FixType]
        ensures { result.now ≡ self.now.inputs }
    {
        &self.inputs
    }

    /// How many outputs y1, y2 and so on the root has.
    pub fn outputs(&self) -> u32
        ensures { result ≡ self.now.outputs }
    {
        self.outputs
    }
}
