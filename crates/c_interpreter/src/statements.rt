// What statements do to the numbers of an instance.
ghost use Rattle.std.specs.Prelude.{◌≡◌, ◌≤◌, ◌<◌, ◌+◌, List, length, map, slice_index_or, Some, false, if◌then◌else◌};
ghost use Rattle.c_syntax.specs.declared.fault.Cost.{Cost};
ghost use Rattle.c_syntax.specs.Plain.{stmt_tree};
ghost use Rattle.c_syntax.specs.Tree.{stmts_of_list, type_at};
ghost use Rattle.c_semantics.specs.Machine.{store, store_at, on_target, routine_at};
ghost use Rattle.c_semantics.specs.Cells.{items_at};
ghost use Rattle.c_interpreter.specs.Codes.{IsReadyCode};
ghost use Rattle.c_interpreter.specs.Frames.{AreSoundIn, IsSoundIn, cells_in, left_in, run_all_in, run_in, scope_in, size_in, slot_in, tree_in};
ghost use Rattle.c_interpreter.specs.Seen.{seen, ended, IsCounted, IsStepped};
ghost use Rattle.c_interpreter.specs.Slots.{layout_at};
ghost use Rattle.c_interpreter.specs.Sound.{IsNumberField, IsArrayField, IsInstanceField, IsCallOf, IsProcedureOf, zero_at};
ghost use Rattle.c_interpreter.specs.States.{filled};
ghost use Rattle.c_interpreter.specs.Statements.{assignment_tree, branch_tree, call_tree, item_assignment_tree};

use crate::arithmetic::{is_in_type, take_step};
use crate::frames::{Environment, Frame};
use crate::halts::{Halt, Verdict};
use crate::slots::Slot;
use crate::values::{FEW, first_of, first_of_few};
use c_syntax::{CType, Cond, Cost, Expr, Stmt, Target, Why};

/// A store of a value in a number field of the frame's instance.
#[derive(Drop)]
struct Assignment<'a> {
    line: u32,
    field: u32,
    value: &'a Expr,
}

/// A store of a value in an item of an array field of the frame's instance.
#[derive(Drop)]
struct ItemAssignment<'a> {
    line: u32,
    field: u32,
    index: &'a Expr,
    value: &'a Expr,
}

/// A choice between statements.
#[derive(Drop)]
struct Branch<'a> {
    line: u32,
    test: &'a Cond,
    on_true: &'a [Stmt],
    on_false: &'a [Stmt],
}

/// A statement that calls a procedure, by its position, on a target.
#[derive(Drop)]
struct Call<'a> {
    line: u32,
    procedure: u32,
    target: Target,
    values: &'a [Expr],
}

/// A procedure, by its position, with the struct of its instance and its arguments.
#[derive(Drop)]
pub(crate) struct Invocation<'a> {
    pub(crate) procedure: usize,
    pub(crate) of: u32,
    pub(crate) arguments: &'a [i64],
}

#[inline(always)]
fn slot_at(frame: &Frame, field: u32) -> Option<Slot>
    ensures slot { result ≡ slot_in frame.now field }
    ensures ready { IsReadyCode frame.now.code }
{
    frame.code.slots(frame.of).get(field as usize).copied()
}

// The place of a number field, and its type.
#[inline(always)]
#[tactic(auto, using(crate::proofs::Places::number_there))]
fn number_slot(frame: &Frame, field: u32) -> (usize, CType)
    requires number { IsNumberField (tree_in frame.now) frame.now.of field }
    ensures slot { slot_in frame.now field ≡ Some (Slot.Number result.0 result.1) }
    ensures ready { IsReadyCode frame.now.code }
{
    match slot_at(frame, field) {
        Some(Slot::Number { at, of }) => (at, of),
        Some(Slot::Instance { .. }) => unreachable!(),
        Some(Slot::Array { .. }) => unreachable!(),
        None => unreachable!(),
    }
}

// The place of an array field, how many items it has, and their type.
#[tactic(auto, using(crate::proofs::Places::array_there))]
fn array_slot(frame: &Frame, field: u32) -> (usize, u32, CType)
    requires array { IsArrayField (tree_in frame.now) frame.now.of field }
    ensures slot { slot_in frame.now field ≡ Some (Slot.Array result.0 result.1 result.2) }
    ensures ready { IsReadyCode frame.now.code }
{
    match slot_at(frame, field) {
        Some(Slot::Array { at, count, of }) => (at, count, of),
        Some(Slot::Number { .. }) => unreachable!(),
        Some(Slot::Instance { .. }) => unreachable!(),
        None => unreachable!(),
    }
}

// The place of a field that holds an instance, its size and its struct.
#[tactic(auto, using(crate::proofs::Places::instance_there))]
fn instance_slot(frame: &Frame, field: u32) -> (usize, usize, u32)
    requires instance { IsInstanceField (tree_in frame.now) frame.now.of field }
    ensures slot { slot_in frame.now field ≡ Some (Slot.Instance result.0 result.1 result.2) }
    ensures ready { IsReadyCode frame.now.code }
{
    match slot_at(frame, field) {
        Some(Slot::Instance { at, size, of }) => (at, size, of),
        Some(Slot::Number { .. }) => unreachable!(),
        Some(Slot::Array { .. }) => unreachable!(),
        None => unreachable!(),
    }
}

// Stores a number in a field, if it is in the field's type.
#[inline(always)]
fn store(frame: &Frame, line: u32, field: u32, value: i64, numbers: &mut [i64]) -> Result<(), Halt>
    requires room { length numbers.old ≡ size_in frame.now }
    requires number { IsNumberField (tree_in frame.now) frame.now.of field }
    ensures { (cost : Cost) → left_in frame.now result numbers.new cost
        ≡ seen cost.calls (store line (type_at (scope_in frame.now).types field) field value
        (cells_in frame.now numbers.old) cost.steps) }
{
    let (at, of) = number_slot(frame, field);
    if is_in_type(of, value) {
        numbers[at] = value;
        Ok(())
    } else {
        Err(Halt::at(line, Why::Range))
    }
}

#[inline(always)]
fn set_field(
    frame: &Frame,
    assignment: &Assignment,
    numbers: &mut [i64],
    cost: &mut Cost,
) -> Result<(), Halt>
    requires sound { IsSoundIn frame.now (assignment_tree assignment.now) }
    requires room { length numbers.old ≡ size_in frame.now }
    requires counted { IsCounted cost.old }
    ensures ran { left_in frame.now result numbers.new cost.new
        ≡ run_in frame.now (assignment_tree assignment.now) numbers.old cost.old }
    ensures counted { IsCounted cost.new }
{
    let Assignment { line, field, value } = *assignment;
    take_step(line, &mut cost.steps)?;
    let environment = Environment {
        frame,
        numbers,
        line,
    };
    match environment.value_of(value, &mut cost.steps) {
        Ok(value) => store(frame, line, field, value, numbers),
        Err(at) => Err(at),
    }
}

// Stores a number at a place of the array that an assignment is of, if it is in the type of the items.
fn store_at(
    frame: &Frame,
    assignment: &ItemAssignment,
    place: usize,
    value: i64,
    numbers: &mut [i64],
) -> Result<(), Halt>
    requires room { length numbers.old ≡ size_in frame.now }
    requires array { IsArrayField (tree_in frame.now) frame.now.of assignment.now.field }
    requires inside { place
        < length (items_at (cells_in frame.now numbers.old) assignment.now.field) }
    ensures { (cost : Cost) → left_in frame.now result numbers.new cost
        ≡ seen cost.calls
        (store_at assignment.now.line
        (type_at (scope_in frame.now).types assignment.now.field) assignment.now.field place value
        (cells_in frame.now numbers.old) cost.steps) }
{
    let (at, _, of) = array_slot(frame, assignment.field);
    if is_in_type(of, value) {
        numbers[at + place] = value;
        Ok(())
    } else {
        Err(Halt::at(assignment.line, Why::Range))
    }
}

// The index is looked at before the value.
#[inline(never)]
fn set_item(
    frame: &Frame,
    assignment: &ItemAssignment,
    numbers: &mut [i64],
    cost: &mut Cost,
) -> Result<(), Halt>
    requires sound { IsSoundIn frame.now (item_assignment_tree assignment.now) }
    requires room { length numbers.old ≡ size_in frame.now }
    requires counted { IsCounted cost.old }
    ensures ran { left_in frame.now result numbers.new cost.new
        ≡ run_in frame.now (item_assignment_tree assignment.now) numbers.old cost.old }
    ensures counted { IsCounted cost.new }
{
    let line = assignment.line;
    take_step(line, &mut cost.steps)?;
    let environment = Environment {
        frame,
        numbers,
        line,
    };
    let place = environment.place_of(assignment.field, assignment.index, &mut cost.steps)?;
    match environment.value_of(assignment.value, &mut cost.steps) {
        Ok(value) => store_at(frame, assignment, place, value, numbers),
        Err(at) => Err(at),
    }
}

/// Runs statements, one after another.
#[cycle(statement)]
pub(crate) fn run_all(
    frame: &Frame,
    stmts: &[Stmt],
    numbers: &mut [i64],
    cost: &mut Cost,
) -> Result<(), Halt>
    requires sound { AreSoundIn frame.now (stmts_of_list (map stmt_tree stmts.now)) }
    requires room { length numbers.old ≡ size_in frame.now }
    requires counted { IsCounted cost.old }
    ensures ran { left_in frame.now result numbers.new cost.new
        ≡ run_all_in frame.now (stmts_of_list (map stmt_tree stmts.now)) numbers.old cost.old }
    ensures counted { IsCounted cost.new }
{
    for i in 0..stmts.len() {
        run(frame, &stmts[i], numbers, cost)?;
    }
    Ok(())
}

#[cycle(statement)]
#[inline(always)]
fn run(frame: &Frame, stmt: &Stmt, numbers: &mut [i64], cost: &mut Cost) -> Result<(), Halt>
    requires sound { IsSoundIn frame.now (stmt_tree stmt.now) }
    requires room { length numbers.old ≡ size_in frame.now }
    requires counted { IsCounted cost.old }
    ensures ran { left_in frame.now result numbers.new cost.new
        ≡ run_in frame.now (stmt_tree stmt.now) numbers.old cost.old }
    ensures counted { IsCounted cost.new }
{
    match stmt {
        Stmt::Set { line, field, value } => {
            let assignment = Assignment {
                line: *line,
                field: *field,
                value,
            };
            set_field(frame, &assignment, numbers, cost)
        }
        Stmt::SetAt {
            line,
            field,
            index,
            value,
        } => {
            let assignment = ItemAssignment {
                line: *line,
                field: *field,
                index,
                value,
            };
            set_item(frame, &assignment, numbers, cost)
        }
        Stmt::If {
            line,
            test,
            yes,
            no,
        } => {
            let branch = Branch {
                line: *line,
                test,
                on_true: yes,
                on_false: no,
            };
            run_if(frame, &branch, numbers, cost)
        }
        Stmt::Call {
            line,
            procedure,
            target,
            values,
        } => {
            let call = Call {
                line: *line,
                procedure: *procedure,
                target: *target,
                values,
            };
            run_call(frame, &call, numbers, cost)
        }
    }
}

#[cycle(statement)]
#[inline(never)]
fn run_if(frame: &Frame, branch: &Branch, numbers: &mut [i64], cost: &mut Cost) -> Result<(), Halt>
    requires sound { IsSoundIn frame.now (branch_tree branch.now) }
    requires room { length numbers.old ≡ size_in frame.now }
    requires counted { IsCounted cost.old }
    ensures ran { left_in frame.now result numbers.new cost.new
        ≡ run_in frame.now (branch_tree branch.now) numbers.old cost.old }
    ensures counted { IsCounted cost.new }
{
    take_step(branch.line, &mut cost.steps)?;
    let environment = Environment {
        frame,
        numbers,
        line: branch.line,
    };
    match environment.holds(branch.test, &mut cost.steps) {
        Verdict::Holds => run_all(frame, branch.on_true, numbers, cost),
        Verdict::Fails => run_all(frame, branch.on_false, numbers, cost),
        Verdict::Halts(at) => Err(at),
    }
}

#[cycle(statement)]
#[inline(never)]
fn run_call(frame: &Frame, call: &Call, numbers: &mut [i64], cost: &mut Cost) -> Result<(), Halt>
    requires sound { IsSoundIn frame.now (call_tree call.now) }
    requires room { length numbers.old ≡ size_in frame.now }
    requires counted { IsCounted cost.old }
    ensures ran { left_in frame.now result numbers.new cost.new
        ≡ run_in frame.now (call_tree call.now) numbers.old cost.old }
    ensures counted { IsCounted cost.new }
{
    if call.values.len() <= FEW {
        let mut room = [0; FEW];
        let arguments = first_of_few(&mut room, call.values.len());
        call_into(frame, call, arguments, numbers, cost)
    } else {
        call_many(frame, call, numbers, cost)
    }
}

#[cycle(statement)]
#[inline(never)]
fn call_many(frame: &Frame, call: &Call, numbers: &mut [i64], cost: &mut Cost) -> Result<(), Halt>
    requires sound { IsSoundIn frame.now (call_tree call.now) }
    requires room { length numbers.old ≡ size_in frame.now }
    requires counted { IsCounted cost.old }
    ensures ran { left_in frame.now result numbers.new cost.new
        ≡ run_in frame.now (call_tree call.now) numbers.old cost.old }
    ensures counted { IsCounted cost.new }
{
    let mut room = [0; 64];
    let arguments = first_of(&mut room, call.values.len());
    call_into(frame, call, arguments, numbers, cost)
}

// A call, whose arguments are written into a room for them.
#[cycle(statement)]
fn call_into(
    frame: &Frame,
    call: &Call,
    arguments: &mut [i64],
    numbers: &mut [i64],
    cost: &mut Cost,
) -> Result<(), Halt>
    requires sound { IsSoundIn frame.now (call_tree call.now) }
    requires room { length numbers.old ≡ size_in frame.now }
    requires counted { IsCounted cost.old }
    requires space { length arguments.old ≡ length call.now.values.now }
    ensures ran { left_in frame.now result numbers.new cost.new
        ≡ run_in frame.now (call_tree call.now) numbers.old cost.old }
    ensures counted { IsCounted cost.new }
{
    take_step(call.line, &mut cost.steps)?;
    let callee = &frame.code.program().procedures[call.procedure as usize];
    let environment = Environment {
        frame,
        numbers,
        line: call.line,
    };
    environment.put_arguments(&callee.params, call.values, arguments, &mut cost.steps)?;
    run_at(frame, call, arguments, numbers, cost)
}

// The procedure of a call, on its target.
#[cycle(statement)]
fn run_at(
    frame: &Frame,
    call: &Call,
    arguments: &[i64],
    numbers: &mut [i64],
    cost: &mut Cost,
) -> Result<(), Halt>
    requires there { IsCallOf (tree_in frame.now) frame.now.of call.now.procedure call.now.target }
    requires earlier { call.now.procedure < frame.now.level }
    requires room { length numbers.old ≡ size_in frame.now }
    requires stepped { IsStepped cost.old }
    ensures ran { left_in frame.now result numbers.new cost.new
        ≡ seen cost.old.calls (on_target call.now.target
        ((routine_at (scope_in frame.now).routines call.now.procedure).run arguments.now)
        (cells_in frame.now numbers.old) cost.old.steps) }
    ensures counted { IsCounted cost.new }
{
    let procedure = call.procedure as usize;
    match call.target {
        Target::Own => {
            let invocation = Invocation {
                procedure,
                of: frame.of,
                arguments,
            };
            run_procedure(frame, &invocation, numbers, cost)
        }
        Target::Child(f) => {
            let (at, size, of) = instance_slot(frame, f);
            let inner = &mut numbers[at..at + size];
            let invocation = Invocation {
                procedure,
                of,
                arguments,
            };
            run_procedure(frame, &invocation, inner, cost)
        }
    }
}

/// A call of a procedure before the frame's, on an instance of its struct.
#[cycle(statement)]
pub(crate) fn run_procedure(
    frame: &Frame,
    invocation: &Invocation,
    numbers: &mut [i64],
    cost: &mut Cost,
) -> Result<(), Halt>
    requires there { IsProcedureOf (tree_in frame.now) invocation.now.procedure invocation.now.of }
    requires earlier { invocation.now.procedure < frame.now.level }
    requires room { length numbers.old
        ≡ (layout_at frame.now.code.layouts invocation.now.of).size }
    requires stepped { IsStepped cost.old }
    ensures ran { ended (zero_at (tree_in frame.now) invocation.now.of) result numbers.new cost.new
        ≡ seen cost.old.calls
        ((routine_at (scope_in frame.now).routines invocation.now.procedure).run
        invocation.now.arguments.now
        (filled (zero_at (tree_in frame.now) invocation.now.of) numbers.old) cost.old.steps) }
    ensures counted { IsCounted cost.new }
{
    let callee = &frame.code.program().procedures[invocation.procedure];
    log_call(frame.code.logged(), invocation.procedure, cost);
    let inner = Frame {
        code: frame.code.again(),
        level: invocation.procedure,
        of: invocation.of,
        values: invocation.arguments,
    };
    run_all(&inner, &callee.body, numbers, cost)
}

// Counts the call of the procedure at a position, if it is an interface's.
fn log_call(logged: &[bool], k: usize, cost: &mut Cost)
    requires { IsStepped cost.old }
    ensures counted { IsCounted cost.new }
    ensures steps { cost.new.steps ≡ cost.old.steps }
    ensures calls { cost.new.calls
        ≡ cost.old.calls + (if slice_index_or logged.now k false then 1 else 0) }
{
    if logged.get(k).copied().unwrap_or(false) {
        cost.calls += 1;
    }
}
