ghost use Rattle.std.specs.Prelude.{◌≡◌, IfErr, option_map};
ghost use Rattle.lustre_syntax.specs.Plain.{file_tree};
ghost use Rattle.lustre_slot_laws.specs.Outcomes as slots;
ghost use Rattle.lustre_evaluation.specs.Results.{result_outcome, IsWaiting};
ghost use Rattle.lustre_evaluation.specs.Views.{before_by};

use crate::expressions::{View, evaluate, read};
use crate::outcome::Unmet;
use crate::places::{expression_at, names_before, names_of};
use lustre_slots::{Placed, Source};
use lustre_syntax::LusFile;

/// What slots see: their file, their sources, and the tick before.
#[derive(Clone, Copy, Drop)]
pub struct Frame<'a> {
    /// The file.
    pub file: &'a LusFile,
    /// What gives each slot its value.
    pub sources: &'a [Source],
    /// Whether there was a tick before.
    pub begun: bool,
    /// The values of the tick before.
    pub before: &'a [i64],
}

/// What the expressions of an instance see.
#[inline(always)]
pub fn view_of<'a>(frame: &Frame<'a>, of: Placed, now: &'a [Option<i64>]) -> View<'a>
    ensures before { before_by result.begun result.before.now
        ≡ option_map (slots.names_of (file_tree frame.now.file.now) of)
        (before_by frame.now.begun frame.now.before.now) }
    ensures values { result.values.now ≡ slots.names_of (file_tree frame.now.file.now) of now.now }
{
    View {
        begun: frame.begun,
        before: names_before(frame.file, of, frame.before),
        values: names_of(frame.file, of, now),
    }
}

// What an expression of an instance comes to.
#[inline(always)]
fn answer_expression(
    frame: &Frame,
    now: &[Option<i64>],
    of: Placed,
    equation: usize,
    expression: usize,
) -> Result<i64, Unmet>
    ensures outcome { let f = file_tree frame.now.file.now in result_outcome result
        ≡ slots.outcome_of
        (option_map (slots.names_of f of) (before_by frame.now.begun frame.now.before.now))
        (slots.names_of f of now.now) (slots.expression_at f of.node equation expression) }
    ensures waits { let f = file_tree frame.now.file.now in IfErr result (IsWaiting
        (λ later. slots.outcome_of
        (option_map (slots.names_of f of) (before_by frame.now.begun frame.now.before.now))
        (slots.names_of f of later) (slots.expression_at f of.node equation expression)) now.now) }
{
    let Some(e) = expression_at(frame.file, of.node, equation, expression) else {
        return Err(Unmet::Never);
    };
    match evaluate(&view_of(frame, of, now), e) {
        Ok(value) => Ok(value),
        Err(Unmet::Waits(name)) => Err(Unmet::Waits(of.base + name)),
        Err(Unmet::Never) => Err(Unmet::Never),
        Err(Unmet::Fails(why)) => Err(Unmet::Fails(why)),
    }
}

/// What a slot comes to.
///
/// # Errors
///
/// `Waits` exactly where it needs a slot without a value, with the first such slot; `Never` where it needs one that is not there;
/// `Fails` where it is undefined.
#[inline(always)]
pub fn answer(frame: &Frame, now: &[Option<i64>], slot: usize) -> Result<i64, Unmet>
    ensures outcome { result_outcome result
        ≡ slots.outcome (file_tree frame.now.file.now)
        (before_by frame.now.begun frame.now.before.now) now.now slot
        (slots.source_at frame.now.sources.now slot) }
    ensures waits { IfErr result (IsWaiting
        (λ later. slots.outcome (file_tree frame.now.file.now)
        (before_by frame.now.begun frame.now.before.now) later slot
        (slots.source_at frame.now.sources.now slot)) now.now) }
{
    match frame.sources.get(slot) {
        Some(
            Source::Expression {
                of,
                equation,
                expression,
            },
        ) => answer_expression(frame, now, *of, *equation, *expression),
        Some(Source::Slot(other)) => read(now, *other),
        _ => read(now, slot),
    }
}
