// What the body of a procedure sees, and its expressions.
ghost use Rattle.std.specs.Prelude.{◌≡◌, ◌≤◌, ◌<◌, ℤ, List, [], length, map, IfOk};
ghost use Rattle.c_semantics.specs.Cells.{items_at};
ghost use Rattle.c_syntax.specs.Plain.{expr_tree, cond_tree, pure_tree};
ghost use Rattle.c_syntax.specs.Tree.{exprs_of_list};
ghost use Rattle.c_semantics.specs.Machine.{arguments};
ghost use Rattle.c_semantics.specs.Values.{and_then, within, index_in};
ghost use Rattle.c_interpreter.specs.Answers.{answered, judged, put_answer, IsLater};
ghost use Rattle.c_interpreter.specs.Frames.{cells_in, functions_in, reads_in, test_in, value_in};
ghost use Rattle.c_interpreter.specs.Reads.{view_reads, IsNarrowExpr, AreNarrowExprs, IsNarrowCond, AreNarrow};

use crate::arithmetic::{is_in_type, place_in};
use crate::code::Code;
use crate::halts::{Halt, Verdict};
use crate::slots::own_array;
use crate::values::{View, eval_any, eval_cond, read};
use base_core::Text;
use c_syntax::{CType, Cond, Expr, Leaf, Why};

/// A body: its program, the procedure's position, its struct, and its arguments.
#[derive(Drop)]
pub(crate) struct Frame<'a> {
    pub(crate) code: Code<'a>,
    pub(crate) level: usize,
    pub(crate) of: u32,
    pub(crate) values: &'a [i64],
}

/// What the expressions of a statement are evaluated in: the frame of its body, the numbers of the
/// instance, and the statement's line.
#[derive(Drop)]
pub(crate) struct Environment<'f, 'a, 'n> {
    pub(crate) frame: &'f Frame<'a>,
    pub(crate) numbers: &'n [i64],
    pub(crate) line: u32,
}

// How many items the own array at a position has; none where the field is no array.
fn items_count(frame: &Frame, field: u32) -> u32
    ensures { (numbers : List ℤ) → length (items_at (cells_in frame.now numbers) field) ≡ result }
{
    own_array(frame.code.slots(frame.of), field).1
}

impl<'f, 'a, 'n> Environment<'f, 'a, 'n> {
    #[inline(always)]
    fn view(&self) -> View<'_>
        ensures pures { result.pures.now ≡ self.now.frame.now.code.program.pure.items }
        ensures narrow { AreNarrow (map pure_tree result.pures.now) }
        ensures line { result.line ≡ self.now.line }
        ensures reads { view_reads result ≡ reads_in self.now.frame.now self.now.numbers.now }
    {
        View {
            pures: &self.frame.code.program().pure,
            layouts: self.frame.code.layouts(),
            slots: self.frame.code.slots(self.frame.of),
            numbers: self.numbers,
            values: self.frame.values,
            line: self.line,
        }
    }

    // What a leaf of the body reads.
    #[inline(always)]
    fn leaf_of(&self, leaf: Leaf) -> i64
        ensures { result ≡ (reads_in self.now.frame.now self.now.numbers.now).leaf leaf }
    {
        let view = self.view();
        read(&view, leaf)
    }

    /// The value of an expression of the body. Leaves and literals take no view that is in memory,
    /// and are asked for one by one, since a jump by a table costs more than both tests.
    #[inline(always)]
    pub(crate) fn value_of(&self, e: &Expr, steps: &mut u64) -> Result<i64, Halt>
        requires narrow { IsNarrowExpr (expr_tree e.now) }
        ensures value { answered result steps.new
            ≡ value_in self.now.frame.now self.now.numbers.now self.now.line (expr_tree e.now)
            steps.old }
        ensures later { IsLater steps.old steps.new }
    {
        if let Expr::Read(leaf) = e {
            return Ok(self.leaf_of(*leaf));
        }
        if let Expr::Literal(value) = e {
            return Ok(*value);
        }
        self.value_of_any(e, steps)
    }

    // The same, by a call.
    #[inline(never)]
    fn value_of_any(&self, e: &Expr, steps: &mut u64) -> Result<i64, Halt>
        requires narrow { IsNarrowExpr (expr_tree e.now) }
        ensures value { answered result steps.new
            ≡ value_in self.now.frame.now self.now.numbers.now self.now.line (expr_tree e.now)
            steps.old }
        ensures later { IsLater steps.old steps.new }
    {
        let view = self.view();
        eval_any(&view, e, steps)
    }

    /// The place in an own array that an index of the body stands for.
    #[tactic(auto, using(crate::proofs::Items::index_gives, crate::proofs::Items::index_sticks, crate::proofs::Evaluations::and_then_sticks))]
    pub(crate) fn place_of(&self, field: u32, index: &Expr, steps: &mut u64) -> Result<usize, Halt>
        requires narrow { IsNarrowExpr (expr_tree index.now) }
        ensures value { let f = self.now.frame.now in
            answered result steps.new
            ≡ and_then (value_in f self.now.numbers.now self.now.line (expr_tree index.now) steps.old)
            (index_in self.now.line (items_at (cells_in f self.now.numbers.now) field)) }
        ensures inside { IfOk result (λ i.
            i < length (items_at (cells_in self.now.frame.now self.now.numbers.now) field)) }
        ensures later { IsLater steps.old steps.new }
    {
        let value = self.value_of(index, steps)?;
        place_in(self.line, items_count(self.frame, field), value)
    }

    /// Whether a condition of the body holds.
    pub(crate) fn holds(&self, test: &Cond, steps: &mut u64) -> Verdict
        requires narrow { IsNarrowCond (cond_tree test.now) }
        ensures value { judged result steps.new
            ≡ test_in self.now.frame.now self.now.numbers.now self.now.line (cond_tree test.now)
            steps.old }
        ensures later { IsLater steps.old steps.new }
    {
        let view = self.view();
        eval_cond(&view, test, steps)
    }

    // An argument, in its parameter's type.
    #[tactic(auto, using(crate::proofs::Evaluations::and_then_gives, crate::proofs::Evaluations::and_then_sticks))]
    fn argument(&self, of: CType, e: &Expr, steps: &mut u64) -> Result<i64, Halt>
        requires narrow { IsNarrowExpr (expr_tree e.now) }
        ensures value { answered result steps.new
            ≡ and_then (value_in self.now.frame.now self.now.numbers.now self.now.line
            (expr_tree e.now) steps.old)
            (within of Why.Range self.now.line) }
        ensures later { IsLater steps.old steps.new }
    {
        let value = self.value_of(e, steps)?;
        if is_in_type(of, value) {
            Ok(value)
        } else {
            Err(Halt::at(self.line, Why::Range))
        }
    }

    /// The arguments of a call, each of them judged before the next is evaluated.
    pub(crate) fn put_arguments(
        &self,
        params: &[(Text, CType)],
        values: &[Expr],
        out: &mut [i64],
        steps: &mut u64,
    ) -> Result<(), Halt>
        requires narrow { AreNarrowExprs (exprs_of_list (map expr_tree values.now)) }
        requires params { length params.now ≡ length values.now }
        requires room { length out.old ≡ length values.now }
        ensures value { put_answer result out.new steps.new
            ≡ arguments (functions_in self.now.frame.now)
            (reads_in self.now.frame.now self.now.numbers.now) self.now.line
            (map (λ q. q.1) params.now) (exprs_of_list (map expr_tree values.now)) steps.old }
        ensures later { IsLater steps.old steps.new }
    {
        for i in 0..values.len() {
            out[i] = self.argument(params[i].1, &values[i], steps)?;
        }
        Ok(())
    }
}
