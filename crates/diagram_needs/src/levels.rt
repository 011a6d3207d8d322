ghost use Rattle.std.specs.Prelude.{◌≡◌, ℕ, ◌+◌, ◌<◌, ◌≤◌, suc, List, length, slice_index, replicate, Contains, IfOk, OnOk};
ghost use Rattle.base_graph.specs.EdgeChains.{AreChains};
ghost use Rattle.diagram_needs.specs.Needed.{needed, IsOnLoop};
ghost use Rattle.diagram_needs.specs.Levels.{AreLevels, AreLevelsTo, IsFront, IsNumbering, unreached};

use base_core::Memory;
use base_graph::{Chains, Graph, chains_of};
use std::alloc::Global;

// For each row the least number of steps that lead from it to `z`, or 0, as far as it is needed to come back from `z` to it.
//
// In time linear in rows and edges: each row is in front once, and each edge is looked at once.
pub(crate) fn levels_to(alloc: Global, g: &Graph, z: u32) -> Result<Vec<usize>, Memory>
    requires { IsOnLoop (needed g.now) z }
    ensures len { IfOk result (λ v. length v.items ≡ g.now.n) }
    ensures reached { IfOk result (λ v. 0 < slice_index v.items z) }
    ensures levels { IfOk result (λ v. AreLevelsTo (needed g.now) z v.items) }
{
    let mut steps = vec![in alloc; 0; g.n as usize]?;
    count_steps(alloc, g, z, &mut steps)?;
    Ok(steps)
}

// Counts the steps, level by level, until `z` itself is reached.
fn count_steps(alloc: Global, g: &Graph, z: u32, steps: &mut [usize]) -> Result<(), Memory>
    requires none { steps.old ≡ replicate g.now.n 0 }
    requires row { z < g.now.n }
    requires on_loop { IsOnLoop (needed g.now) z }
    ensures reached { OnOk result (0 < slice_index steps.new z) }
    ensures levels { OnOk result (AreLevelsTo (needed g.now) z steps.new) }
{
    let chains = chains_of(alloc, g)?;
    let mut front = vec![in alloc; z]?;
    let mut k = 0;
    'levels: while steps[z as usize] == 0 {
        front = advance(alloc, g, &chains, &front, k, steps)?;
        k += 1;
    }
    Ok(())
}

// Numbers the rows from which `k + 1` steps lead to `z`, and no fewer, and gives them; those of `k` steps are in front.
fn advance(
    alloc: Global,
    g: &Graph,
    chains: &Chains,
    front: &[u32],
    k: usize,
    steps: &mut [usize],
) -> Result<Vec<u32>, Memory>
    requires chained { AreChains g.now chains.now.last.items chains.now.before.items }
    requires len { length steps.old ≡ g.now.n }
    requires few { k ≤ g.now.n }
    requires inside { (a : ℕ) → Contains front.now a → a < g.now.n }
    ensures levels { IfOk result (λ next. (z : ℕ) → AreLevels (needed g.now) z k steps.old →
        IsFront z k steps.old front.now →
        AreLevels (needed g.now) z (k + 1) steps.new × IsFront z (k + 1) steps.new next.items) }
    ensures falls { OnOk result ((z : ℕ) → AreLevels (needed g.now) z k steps.old →
        IsFront z k steps.old front.now →
        IsOnLoop (needed g.now) z → slice_index steps.old z ≡ 0 →
        unreached steps.new < unreached steps.old) }
{
    let mut next = Vec::new(alloc);
    for a in front {
        number(g, chains, *a, k + 1, steps, &mut next)?;
    }
    Ok(next)
}

// Gives the number to the rows that need row `a` and have none yet, and lists them.
fn number(
    g: &Graph,
    chains: &Chains,
    a: u32,
    count: usize,
    steps: &mut [usize],
    next: &mut Vec<u32>,
) -> Result<(), Memory>
    requires chained { AreChains g.now chains.now.last.items chains.now.before.items }
    requires len { length steps.old ≡ g.now.n }
    requires row { a < g.now.n }
    requires count { 0 < count }
    ensures { OnOk result ((front before : List ℕ) (i : ℕ) → i < length front →
        slice_index front i ≡ a →
        IsNumbering g.now count front before steps.old next.old.items i (length g.now.edges) →
        IsNumbering g.now count front before steps.new next.new.items (suc i)
        (length g.now.edges)) }
{
    let mut place = chains.last[a as usize];
    while place > 0 {
        let b = g.edges[place - 1].1;
        if steps[b as usize] == 0 {
            steps[b as usize] = count;
            next.push(b)?;
        }
        place = chains.before[place - 1];
    }
    Ok(())
}
