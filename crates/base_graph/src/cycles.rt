ghost use Rattle.std.specs.Prelude.{◌≡◌, ℕ, ◌+◌, ◌-◌, ◌<◌, ◌≤◌, List, drop, length, IfOk, MatchOption, slice_index};
ghost use Rattle.base_graph.specs.NeedsGraph.{Needs};
ghost use Rattle.base_graph.specs.Reaching.{IsCycle};
ghost use Rattle.base_graph.specs.Placing.{IsBlocked, EachBlockedNeeds, AreBlockedNeeds};

use crate::Graph;
use crate::chains::zeros;
use base_core::Memory;
use std::alloc::Global;

/// The least node that needs something yet.
pub fn first_blocked(unmet: &[usize], n: u32) -> Option<u32>
    requires { length unmet.now ≡ n }
    ensures { MatchOption result ((b : ℕ) → b < n → slice_index unmet.now b ≡ 0)
        (λ b. (b < n) × (0 < slice_index unmet.now b)) }
{
    for b in 0..n {
        if unmet[b as usize] > 0 {
            return Some(b);
        }
    }
    None
}

/// A cycle that the blocked node `start` leads to, from each of which a blocked node that it needs is the next.
pub fn find_cycle(alloc: Global, g: &Graph, unmet: &[usize], start: u32) -> Result<Vec<u32>, Memory>
    requires len { length unmet.now ≡ g.now.n }
    requires each { EachBlockedNeeds g.now unmet.now }
    requires blocked { IsBlocked g.now unmet.now start }
    ensures { IfOk result (λ v. IsCycle g.now v.items) }
{
    let needs = blocked_needs(alloc, g, unmet)?;
    let mut places = zeros(alloc, g.n)?;
    let mut path = Vec::new(alloc);
    let mut at = start;
    while places[at as usize] == 0 {
        path.push(at)?;
        places[at as usize] = path.len();
        at = needs[at as usize];
    }
    let place = places[at as usize];
    from_place(alloc, &path, place)
}

/// The rest of a path from a place on, counted from 1.
fn from_place(alloc: Global, path: &[u32], place: usize) -> Result<Vec<u32>, Memory>
    requires above { 0 < place }
    requires within { place ≤ length path.now }
    ensures { IfOk result (λ v. v.items ≡ drop (place - 1) path.now) }
{
    Ok(path[place - 1..].to_vec(alloc)?)
}

/// For each blocked node a blocked one that it needs.
fn blocked_needs(alloc: Global, g: &Graph, unmet: &[usize]) -> Result<Vec<u32>, Memory>
    requires len { length unmet.now ≡ g.now.n }
    requires each { EachBlockedNeeds g.now unmet.now }
    ensures { IfOk result (λ needs. AreBlockedNeeds g.now unmet.now needs.items) }
{
    let mut needs = vec![in alloc; 0; g.n as usize]?;
    for edge in g.edges.iter() {
        if unmet[edge.0 as usize] > 0 {
            needs[edge.1 as usize] = edge.0;
        }
    }
    Ok(needs)
}
