// The place where a tick is stuck.
ghost use Rattle.std.specs.Prelude.{◌≡◌, map, flat_map};
ghost use Rattle.std.specs.List.{list_all};
ghost use Rattle.lustre_syntax.specs.Plain.{expr_tree, equation_tree, file_tree};
ghost use Rattle.lustre_syntax.specs.Tree.{node_at, given_by, line_of};
ghost use Rattle.lustre_flows.specs.Values.{evaluate, value_at};
ghost use Rattle.lustre_flows.specs.Instances.{has_value};
ghost use Rattle.lustre_flows.specs.Ticks.{failure, failures, waiting, least_place};
ghost use Rattle.lustre_slot_laws.specs.SlotLaws as slots;
ghost use Rattle.lustre_evaluation.specs.Views.{before_by};
ghost use Rattle.lustre_interpreter.specs.Places.{sooner, soonest, telling};

use lustre_evaluation::{Frame, Unmet, View, evaluate, view_of};
use lustre_flows::{LusStuck, LusWhy};
use lustre_slots::Placed;
use lustre_syntax::{LusEq, LusExpr, LusFile};

/// What is reported of equations.
#[derive(Clone, Copy, Debug, PartialEq, Eq, Drop)]
pub(crate) enum Told {
    /// Their expressions that are undefined.
    Failures,
    /// Whether they give some name no value.
    Waiting,
}

// A place, unless another one has no greater line.
fn sooner(best: Option<LusStuck>, at: LusStuck) -> Option<LusStuck>
    ensures { result ≡ sooner best at }
{
    match best {
        Some(best) if best.line <= at.line => Some(best),
        _ => Some(at),
    }
}

// An expression of an equation that is undefined.
fn failure(view: &View, line: u32, e: &LusExpr, best: Option<LusStuck>) -> Option<LusStuck>
    ensures { result ≡ soonest best (failure line
        (evaluate (before_by view.now.begun view.now.before.now) view.now.values.now
        (expr_tree e.now))) }
{
    match evaluate(view, e) {
        Ok(_) => best,
        Err(Unmet::Waits(_)) => best,
        Err(Unmet::Never) => best,
        Err(Unmet::Fails(why)) => sooner(best, LusStuck { line, why }),
    }
}

// The expressions of an equation that are undefined.
fn failures_among(
    view: &View,
    line: u32,
    expressions: &[LusExpr],
    mut best: Option<LusStuck>,
) -> Option<LusStuck>
    ensures { result ≡ soonest best (flat_map
        (λ x. failure line (evaluate (before_by view.now.begun view.now.before.now)
        view.now.values.now x)) (map expr_tree expressions.now)) }
{
    for e in expressions {
        best = failure(view, line, e, best);
    }
    best
}

fn failures_in(view: &View, equation: &LusEq, best: Option<LusStuck>) -> Option<LusStuck>
    ensures { result ≡ soonest best (failures
        (before_by view.now.begun view.now.before.now) view.now.values.now
        (equation_tree equation.now)) }
{
    match equation {
        LusEq::Set { line, value, .. } => failure(view, *line, value, best),
        LusEq::Call { line, values, .. } => failures_among(view, *line, values, best),
    }
}

// Whether a name has a value.
fn has_value(values: &[Option<i64>], name: u32) -> bool
    ensures { result ≡ has_value (value_at values.now name) }
{
    match values.get(name as usize) {
        Some(Some(_)) => true,
        _ => false,
    }
}

// Whether all names that an equation gives have values.
fn is_given(values: &[Option<i64>], equation: &LusEq) -> bool
    ensures { result
        ≡ list_all (λ k. has_value (value_at values.now k)) (given_by (equation_tree equation.now)) }
{
    match equation {
        LusEq::Set { name, .. } => has_value(values, *name),
        LusEq::Call { names, .. } => names.wires().iter().all(|name| has_value(values, *name)),
    }
}

// The line of an equation.
fn line_of(equation: &LusEq) -> u32
    ensures { result ≡ line_of (equation_tree equation.now) }
{
    match equation {
        LusEq::Set { line, .. } => *line,
        LusEq::Call { line, .. } => *line,
    }
}

fn waiting_in(view: &View, equation: &LusEq, best: Option<LusStuck>) -> Option<LusStuck>
    ensures { result ≡ soonest best (waiting
        (before_by view.now.begun view.now.before.now) view.now.values.now
        (equation_tree equation.now)) }
{
    if is_given(view.values, equation) {
        best
    } else {
        let at = LusStuck {
            line: line_of(equation),
            why: LusWhy::Cycle,
        };
        sooner(best, at)
    }
}

// What is reported of one equation.
fn told_of(told: Told, view: &View, equation: &LusEq, best: Option<LusStuck>) -> Option<LusStuck>
    ensures { result ≡ soonest best (telling told
        (before_by view.now.begun view.now.before.now) view.now.values.now
        (equation_tree equation.now)) }
{
    match told {
        Told::Failures => failures_in(view, equation, best),
        Told::Waiting => waiting_in(view, equation, best),
    }
}

// What is reported of equations.
fn told_among(
    told: Told,
    view: &View,
    equations: &[LusEq],
    mut best: Option<LusStuck>,
) -> Option<LusStuck>
    ensures { result ≡ soonest best (flat_map (telling told
        (before_by view.now.begun view.now.before.now) view.now.values.now)
        (map equation_tree equations.now)) }
{
    for equation in equations {
        best = told_of(told, view, equation, best);
    }
    best
}

// The equations of a node; none past the end.
fn equations_of(file: &LusFile, node: usize) -> &[LusEq]
    ensures { map equation_tree result.now ≡ (node_at (file_tree file.now).nodes node).equations }
{
    match file.nodes.get(node) {
        Some(node) => &node.equations,
        None => &[],
    }
}

// What is reported of an instance.
fn told_in(
    told: Told,
    frame: &Frame,
    now: &[Option<i64>],
    of: Placed,
    best: Option<LusStuck>,
) -> Option<LusStuck>
    ensures { result ≡ soonest best (slots.told_in (telling told) (file_tree frame.now.file.now)
        (before_by frame.now.begun frame.now.before.now) now.now of) }
{
    let equations = equations_of(frame.file, of.node);
    told_among(told, &view_of(frame, of, now), equations, best)
}

/// The first place with the least line of all that is reported.
pub(crate) fn least_place(
    told: Told,
    frame: &Frame,
    now: &[Option<i64>],
    instances: &[Placed],
) -> Option<LusStuck>
    ensures { result ≡ least_place (flat_map
        (slots.told_in (telling told) (file_tree frame.now.file.now)
        (before_by frame.now.begun frame.now.before.now) now.now) instances.now) }
{
    let mut best = None;
    for of in instances {
        best = told_in(told, frame, now, *of, best);
    }
    best
}
