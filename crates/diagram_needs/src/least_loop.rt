ghost use Rattle.std.specs.Prelude.{◌≡◌, ℕ, ◌<◌, ◌∷◌, ◌↔◌, suc, List, Some, None, IfOk, IsTrue, length, replicate, slice_index, slice_index_or, slice_set};
ghost use Rattle.diagram_meaning.specs.Walk.{IsLeastLoop};
ghost use Rattle.diagram_needs.specs.Least.{IsLeastOf, lesser_of};
ghost use Rattle.diagram_needs.specs.Needed.{needed, IsOnLoop};
ghost use Rattle.diagram_needs.specs.Levels.{AreLevelsTo};
ghost use Rattle.diagram_needs.specs.LeastPaths.{IsLeastPath, AreNextOn};

use crate::least::lesser;
use crate::levels::levels_to;
use base_core::Memory;
use base_graph::Graph;
use std::alloc::Global;

// The first in order of the shortest loops through a row, which is the least on any loop.
pub(crate) fn least_loop(alloc: Global, g: &Graph, row: u32) -> Result<Vec<u32>, Memory>
    requires { IsLeastOf (IsOnLoop (needed g.now)) (Some row) }
    ensures { IfOk result (λ v. IsLeastLoop (needed g.now) v.items) }
{
    let steps = levels_to(alloc, g, row)?;
    follow(alloc, g, &steps, row)
}

// The rows from `row` on along a shortest way back to it, the least row at each step. In time linear in rows and edges.
fn follow(alloc: Global, g: &Graph, steps: &[usize], row: u32) -> Result<Vec<u32>, Memory>
    requires len { length steps.now ≡ g.now.n }
    requires reached { 0 < slice_index steps.now row }
    requires levels { AreLevelsTo (needed g.now) row steps.now }
    ensures { IfOk result (λ v. (path : List ℕ) × (v.items ≡ row ∷ path)
        × IsLeastPath (needed g.now) row steps.now row path) }
{
    let nearer = next_rows(alloc, g, steps)?;
    let mut rows = Vec::new(alloc);
    rows.push(row)?;
    let mut at = row;
    while let Some(next) = nearer[at as usize] {
        rows.push(next)?;
        at = next;
    }
    Ok(rows)
}

// For each row the least one that it needs and from which the way is one step shorter.
fn next_rows(alloc: Global, g: &Graph, steps: &[usize]) -> Result<Vec<Option<u32>>, Memory>
    requires { length steps.now ≡ g.now.n }
    ensures { IfOk result (λ v. AreNextOn (needed g.now) steps.now v.items) }
{
    let mut next = vec![in alloc; None; g.n as usize]?;
    find_next(g, steps, &mut next);
    Ok(next)
}

// Finds these rows, edge by edge.
fn find_next(g: &Graph, steps: &[usize], next: &mut [Option<u32>])
    requires len { length steps.now ≡ g.now.n }
    requires none { next.old ≡ replicate g.now.n None }
    ensures { AreNextOn (needed g.now) steps.now next.new }
{
    for edge in g.edges.iter() {
        if is_nearer(steps, edge.0, edge.1) {
            keep_lesser(next, edge.1, edge.0);
        }
    }
}

// Keeps the lesser of what was found for row `at` and `c`.
fn keep_lesser(next: &mut [Option<u32>], at: u32, c: u32)
    requires { at < length next.old }
    ensures { next.new
        ≡ slice_set next.old at (Some (lesser_of (slice_index_or next.old at None) c)) }
{
    let found = next[at as usize];
    next[at as usize] = Some(lesser(found, c));
}

// Whether the way from row `c` is one step shorter than that from `at`.
fn is_nearer(steps: &[usize], c: u32, at: u32) -> bool
    requires c_in { c < length steps.now }
    requires at_in { at < length steps.now }
    ensures { IsTrue result
        ↔ ((0 < slice_index steps.now c)
        × (suc (slice_index steps.now c) ≡ slice_index steps.now at)) }
{
    let near = steps[c as usize];
    let far = steps[at as usize];
    0 < near && near < far && far - near == 1
}
