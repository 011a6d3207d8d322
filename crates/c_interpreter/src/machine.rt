ghost use Rattle.std.specs.Prelude.{◌≡◌, ◌<◌, length, IfOk, IfErr, IfSome, option_and_then};
ghost use Rattle.c_syntax.specs.Plain.{program_tree};
ghost use Rattle.c_syntax.specs.RootFields.{root_struct};
ghost use Rattle.c_checked.specs.Checked.{IsChecked};
ghost use Rattle.c_interpreter.specs.Codes.{code_tree};
ghost use Rattle.c_interpreter.specs.Instances.{instances, instance_at, child_named, number_named};
ghost use Rattle.c_interpreter.specs.Machines.{IsStarted, IsStartFault, IsRow, IsTick, IsStuckTick, IsCallable, IsCall, IsStuckCall};
ghost use Rattle.c_interpreter.specs.Numbering.{IsNumbering};
ghost use Rattle.c_interpreter.specs.Roots.{AreTables, HasTables, IsMachine};
ghost use Rattle.c_interpreter.specs.Slots.{layout_at};
ghost use Rattle.c_interpreter.specs.States.{tree_of, fields_of};

use crate::calls::run_instance;
use crate::code::Code;
use crate::instances::{Numbering, child_of, count_at, number_of};
use crate::roots::{Tables, put_outputs, run_root, size_at, tables_of, zeros};
use crate::slots::slots_at;
use c_checked::Checked;
use c_syntax::{Cost, Stuck};
use std::alloc::{AllocError, Global};
use std::marker::Model;

/// Why there is no machine: `root_start` is stuck, or memory ran out.
#[derive(Clone, Copy, Debug, PartialEq, Eq, Drop)]
pub enum NewFault {
    /// `root_start` is stuck, where and why.
    Stuck(Stuck),
    /// Memory ran out.
    Memory,
}

impl From<AllocError> for NewFault {
    ghost use Rattle.std.specs.Prelude.{◌≡◌};
    ghost use Rattle.c_interpreter.specs.declared.machine.NewFault.{NewFault};

    ghost from_gives = { λ e f. f ≡ NewFault.Memory };

    fn from(_: AllocError) -> NewFault {
        NewFault::Memory
    }
}

/// A program with its numbers. It is seen as the program and the numbers of the fields of `struct root` and of the structs in it,
/// in the order in which they are.
#[derive(Drop)]
pub struct Machine {
    checked: Checked,
    tables: Tables,
    numbers: Vec<i64>,
}

impl Model for Machine {
    ghost use Rattle.c_syntax.specs.contracts.code.Expr as expression;
    ghost use Rattle.c_syntax.specs.contracts.code.Stmt as statement;
    ghost use Rattle.std.specs.Coded.{codes};
    ghost use Rattle.c_interpreter.specs.States.{MachineState};
    ghost use Rattle.c_interpreter.specs.Roots.{IsMachine};

    ghost Value = { MachineState };

    ghost coded = { Prim.hlevel (codes, expression.the_row.coded, statement.the_row.coded) };

    ghost view = { λ m. record { program = m.checked; numbers = m.numbers.items } };

    ghost invariant = { λ m. IsMachine m.checked m.tables m.numbers.items };
}

impl Machine {
    /// The program's numbers are 0, and then `root_start` is run. All memory is taken here.
    ///
    /// # Errors
    ///
    /// `Stuck` exactly where `root_start` is stuck, with its line and why; `Memory` where memory ran out, or where a struct has
    /// more numbers than a `usize` can count, or an instance of it, with those inside, is more than a `u32` can count.
    pub fn new(alloc: Global, program: Checked) -> Result<Machine, NewFault>
        ensures started { IfOk result (IsStarted program) }
        ensures stuck { IfErr result (IsStartFault program) }
    {
        let (tables, numbers) = started(alloc, &program)?;
        Ok(Machine {
            checked: program,
            tables,
            numbers,
        })
    }

    /// The program.
    pub fn checked(&self) -> &Checked
        ensures { result.now ≡ self.now.program }
    {
        &self.checked
    }

    /// A tick: `root_step` on a row of inputs, whose outputs y1, y2 and so on go into `outputs`. The result is what it
    /// took: steps, and calls of interface procedures.
    ///
    /// # Errors
    ///
    /// Exactly where the machine is stuck, with the line and why (C99, 6.5 and 6.3.1.3, made strict); its fields are then as the
    /// run left them, and `outputs` may hold anything.
    pub fn tick(&mut self, inputs: &[i64], outputs: &mut [i64]) -> Result<Cost, Stuck>
        requires row { IsRow self.old inputs.now }
        requires outputs { length outputs.old ≡ self.old.program.outputs }
        ensures program { self.new.program ≡ self.old.program }
        ensures room { length outputs.new ≡ length outputs.old }
        ensures ticked { IfOk result (IsTick self.old self.new inputs.now outputs.new) }
        ensures stuck { IfErr result (IsStuckTick self.old self.new inputs.now) }
    {
        let tables = &self.tables;
        let code = Code::new(self.checked.program(), &tables.layouts, &tables.logged);
        let cost = run_root(&code, tables.root, tables.step, inputs, &mut self.numbers)?;
        let slots = slots_at(&tables.layouts, tables.root);
        put_outputs(slots, &tables.outputs, &self.numbers, outputs);
        Ok(cost)
    }

    /// The number of the instance in the struct field with a name, of an instance. Instances are numbered from 0, the root: each
    /// before those inside it, in the order of its fields. None exactly where there is no such instance, or its struct has no
    /// struct field of that name.
    pub fn child(&self, instance: u32, field: &[u8]) -> Option<u32>
        ensures child { option_and_then (instance_at (tree_of self.now)) result
            ≡ option_and_then (child_named (tree_of self.now) field.now)
            (instance_at (tree_of self.now) instance) }
        ensures there { IfSome result (λ j. j < length (instances (tree_of self.now))) }
    {
        let numbering = numbering_of(&self.checked, &self.tables);
        child_of(&numbering, instance, field)
    }

    /// The number in the number field with a name, of an instance. None exactly where there is no such instance, or its struct has
    /// no number field of that name.
    pub fn field(&self, instance: u32, name: &[u8]) -> Option<i64>
        ensures { result
            ≡ option_and_then (number_named (tree_of self.now) (fields_of self.now) name.now)
            (instance_at (tree_of self.now) instance) }
    {
        let numbering = numbering_of(&self.checked, &self.tables);
        number_of(&numbering, &self.numbers, instance, name)
    }

    /// A call from outside of a procedure, on an instance of its struct, with arguments in the types of its parameters. The
    /// result is what it took: steps, and calls of interface procedures, this one with them.
    ///
    /// # Errors
    ///
    /// Exactly where the machine is stuck, with the line and why (C99, 6.5 and 6.3.1.3, made strict); its fields are then as the
    /// run left them.
    pub fn call(&mut self, procedure: u32, instance: u32, values: &[i64]) -> Result<Cost, Stuck>
        requires { IsCallable self.old procedure instance values.now }
        ensures program { self.new.program ≡ self.old.program }
        ensures called { IfOk result (IsCall self.old self.new procedure instance values.now) }
        ensures stuck { IfErr result (IsStuckCall self.old self.new procedure instance values.now) }
    {
        let numbering = numbering_of(&self.checked, &self.tables);
        run_instance(&numbering, procedure, instance, values, &mut self.numbers)
    }
}

// The tables of a program, and its numbers after `root_start`.
fn started(alloc: Global, checked: &Checked) -> Result<(Tables, Vec<i64>), NewFault>
    requires { IsChecked checked.now }
    ensures machine { IfOk result (λ r. IsMachine checked.now r.0 r.1.items) }
    ensures started { IfOk result
        (λ r. IsStarted checked.now (record { program = checked.now; numbers = r.1.items })) }
    ensures stuck { IfErr result (IsStartFault checked.now) }
{
    let tables = tables_of(alloc, checked.program(), checked.outputs())?;
    let numbers = first_numbers(alloc, checked, &tables)?;
    Ok((tables, numbers))
}

// The numbers of a program after `root_start`, by its tables.
fn first_numbers(alloc: Global, checked: &Checked, tables: &Tables) -> Result<Vec<i64>, NewFault>
    requires { AreTables (program_tree checked.now.program) tables.now.layouts.items
        tables.now.logged.items tables.now.root tables.now.start tables.now.step
        tables.now.outputs.items }
    ensures room { IfOk result
        (λ v. length v.items ≡ (layout_at tables.now.layouts.items tables.now.root).size) }
    ensures started { IfOk result
        (λ v. IsStarted checked.now (record { program = checked.now; numbers = v.items })) }
    ensures stuck { IfErr result (IsStartFault checked.now) }
{
    let mut numbers = zeros(alloc, size_at(&tables.layouts, tables.root))?;
    let code = Code::new(checked.program(), &tables.layouts, &tables.logged);
    match run_root(&code, tables.root, tables.start, &[], &mut numbers) {
        Ok(_) => Ok(numbers),
        Err(at) => Err(NewFault::Stuck(at)),
    }
}

// The numbering of a program's instances, by its tables.
fn numbering_of<'a>(checked: &'a Checked, tables: &'a Tables) -> Numbering<'a>
    requires { HasTables checked.now tables.now }
    ensures numbering { IsNumbering result }
    ensures program { result.code.program ≡ checked.now.program }
    ensures layouts { result.code.layouts ≡ tables.now.layouts.items }
    ensures root { result.root ≡ tables.now.root }
    ensures root_struct { result.root ≡ root_struct (code_tree result.code) }
{
    Numbering {
        code: Code::new(checked.program(), &tables.layouts, &tables.logged),
        counts: &tables.counts,
        root: tables.root,
        count: count_at(&tables.counts, tables.root),
    }
}
