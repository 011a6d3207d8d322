ghost use Rattle.std.specs.Prelude.{◌≡◌, ℕ, ◌+◌, ◌<◌, ◌≤◌, ◌↔◌, List, [], ◌∷◌, ◌++◌, length, Option, IfOk, OnOk, IsTrue, Contains, MatchOption, sum_by};
ghost use Rattle.base_graph.specs.EdgeChains.{AreChains};
ghost use Rattle.diagram_meaning.specs.declared.times.Time.{Time};
ghost use Rattle.diagram_times.specs.Hulls.{Covers, IsJoined, IsWidened, room};
ghost use Rattle.diagram_times.specs.Searching.{AreFound, IsSpread, TakesUp};
ghost use Rattle.diagram_times.specs.Searching as searching;

use crate::hull::{hull, includes};
use base_core::Memory;
use base_graph::{Chains, Graph, chains_of, nodes};
use diagram_meaning::Time;
use std::alloc::Global;

/// For each node the smallest time that includes all times that nodes which reach it are given, and its own; none where
/// there are none.
///
/// A node is looked at again when what was found at it was widened. Its period then falls to a proper divisor, so that it
/// is looked at at most 32 times.
pub(crate) fn settle(
    alloc: Global,
    g: &Graph,
    given: &[Option<Time>],
) -> Result<Vec<Option<Time>>, Memory>
    requires { length given.now ≡ g.now.n }
    ensures { IfOk result (λ v. AreFound g.now given.now v.items) }
{
    let mut found = Vec::from_slice(alloc, given)?;
    spread_all(alloc, g, &mut found)?;
    Ok(found)
}

/// Spreads what is given to the nodes, which begin with it.
fn spread_all(alloc: Global, g: &Graph, found: &mut [Option<Time>]) -> Result<(), Memory>
    requires { length found.old ≡ g.now.n }
    ensures { OnOk result (AreFound g.now found.old found.new) }
{
    let chains = chains_of(alloc, g)?;
    let mut waiting = nodes(alloc, g.n)?;
    while let Some(a) = waiting.pop() {
        spread(g, &chains, a, found, &mut waiting)?;
    }
    Ok(())
}

/// Adds what was found at `a` to what was found at the nodes that it feeds; those that were widened wait.
fn spread(
    g: &Graph,
    chains: &Chains,
    a: u32,
    found: &mut [Option<Time>],
    waiting: &mut Vec<u32>,
) -> Result<(), Memory>
    requires node { a < g.now.n }
    requires chained { AreChains g.now chains.now.last.items chains.now.before.items }
    requires len { length found.old ≡ g.now.n }
    ensures spread { OnOk result ((given : List (Option Time)) →
        IsSpread g.now given found.old (waiting.old.items ++ a ∷ []) 0 0 →
        IsSpread g.now given found.new waiting.new.items 0 0) }
    ensures shrunk { OnOk result (length waiting.new.items + sum_by room found.new ≤ length waiting.old.items
        + sum_by room found.old) }
{
    let mut place = chains.last[a as usize];
    while place > 0 {
        let b = g.edges[place - 1].1;
        if take_up(found, a as usize, b as usize) {
            waiting.push(b)?;
        }
        place = chains.before[place - 1];
    }
    Ok(())
}

/// Adds what was found at `a` to what was found at `b`, and says whether that was widened.
fn take_up(found: &mut [Option<Time>], a: usize, b: usize) -> bool
    requires { b < length found.old }
    ensures { TakesUp found.old found.new a b result }
{
    let Some(time) = found_at(found, a) else {
        return false;
    };
    let Some(wider) = widened(found_at(found, b), time) else {
        return false;
    };
    found[b] = Some(wider);
    true
}

/// What was found at a node, none past the end.
pub(crate) fn found_at(found: &[Option<Time>], b: usize) -> Option<Time>
    ensures { result ≡ searching.found_at found.now b }
{
    found.get(b).copied().unwrap_or(None)
}

/// What was found, widened by a time; none where it includes that time.
fn widened(found: Option<Time>, time: Time) -> Option<Time>
    ensures { MatchOption result (Covers found time) (IsWidened found time) }
{
    match found {
        None => Some(time),
        Some(found) if includes(found, time) => None,
        Some(found) => Some(hull(found, time)),
    }
}

/// The smallest time that includes both, where both are there; else the one that is.
pub(crate) fn joined(found: Option<Time>, other: Option<Time>) -> Option<Time>
    ensures { IsJoined found other result }
{
    match (found, other) {
        (Some(found), Some(other)) => Some(hull(found, other)),
        (None, other) => other,
        (found, None) => found,
    }
}
