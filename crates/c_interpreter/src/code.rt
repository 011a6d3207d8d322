// A program that the machine can run.
ghost use Rattle.std.specs.Prelude.{◌≡◌};
ghost use Rattle.c_syntax.specs.Plain.{program_tree};
ghost use Rattle.c_syntax.specs.PlainField.{field_trees};
ghost use Rattle.c_syntax.specs.Tree.{struct_fields};
ghost use Rattle.c_interpreter.specs.Codes.{IsReadyCode, code_tree};
ghost use Rattle.c_interpreter.specs.Slots.{layout_at};
ghost use Rattle.c_interpreter.specs.Sound.{IsReady};

use crate::roots::{fields_of, size_at};
use crate::slots::{Layout, Slot, slots_at};
use c_syntax::{Field, Program};
use std::marker::Model;

/// A program with the machine's tables for it: the places of the fields of each struct, and whether the calls of each procedure
/// are counted. Each is ready to be run.
#[derive(Drop)]
pub(crate) struct Code<'a> {
    program: &'a Program,
    layouts: &'a [Layout],
    logged: &'a [bool],
}

impl<'a> Model for Code<'a> {
    ghost use Rattle.c_syntax.specs.contracts.code.Expr as expression;
    ghost use Rattle.c_syntax.specs.contracts.code.Stmt as statement;
    ghost use Rattle.std.specs.Coded.{codes};
    ghost use Rattle.c_interpreter.specs.Codes.{ReadyCode, IsReadyCode};

    ghost Value = { ReadyCode };

    ghost coded = { Prim.hlevel (codes, expression.the_row.coded, statement.the_row.coded) };

    ghost view = { λ c. record { program = c.program.now; layouts = c.layouts.now; logged = c.logged.now } };

    ghost invariant = { λ c. IsReadyCode
        (record { program = c.program.now; layouts = c.layouts.now; logged = c.logged.now }) };
}

impl<'a> Code<'a> {
    /// A program with the tables that were made for it.
    pub(crate) fn new(program: &'a Program, layouts: &'a [Layout], logged: &'a [bool]) -> Code<'a>
        requires { IsReady (program_tree program.now) layouts.now logged.now }
        ensures { result ≡ record {
          program = program.now;
          layouts = layouts.now;
          logged = logged.now;
        } }
    {
        Code {
            program,
            layouts,
            logged,
        }
    }

    /// The same once more.
    #[inline(always)]
    pub(crate) fn again(&self) -> Code<'a>
        ensures { result ≡ self.now }
    {
        Code {
            program: self.program,
            layouts: self.layouts,
            logged: self.logged,
        }
    }

    /// The program, which is ready with these tables.
    #[inline(always)]
    pub(crate) fn program(&self) -> &'a Program
        ensures program { result.now ≡ self.now.program }
        ensures ready { IsReadyCode self.now }
    {
        self.program
    }

    /// The places of the fields of each struct.
    #[inline(always)]
    pub(crate) fn layouts(&self) -> &'a [Layout]
        ensures { result.now ≡ self.now.layouts }
    {
        self.layouts
    }

    /// The places of the fields of the struct at a position, in a program that is ready with them.
    #[inline(always)]
    pub(crate) fn slots(&self, of: u32) -> &'a [Slot]
        ensures slots { result.now ≡ (layout_at self.now.layouts of).slots }
        ensures ready { IsReadyCode self.now }
    {
        slots_at(self.layouts, of)
    }

    /// The fields of the struct at a position.
    pub(crate) fn fields_of(&self, of: u32) -> &'a [Field]
        ensures { field_trees result.now ≡ struct_fields (code_tree self.now).structs of }
    {
        fields_of(self.program, of)
    }

    /// How many numbers an instance of the struct at a position has.
    pub(crate) fn size_at(&self, of: u32) -> usize
        ensures { result ≡ (layout_at self.now.layouts of).size }
    {
        size_at(self.layouts, of)
    }

    /// Whether the calls of each procedure are counted.
    #[inline(always)]
    pub(crate) fn logged(&self) -> &'a [bool]
        ensures { result.now ≡ self.now.logged }
    {
        self.logged
    }
}
