// A row below which none is on a loop.
ghost use Rattle.std.specs.Prelude.{◌≡◌, ℕ, ◌≤◌, IfOk};
ghost use Rattle.diagram_needs.specs.Needed.{needed, IsOnLoop};
ghost use Rattle.diagram_needs.specs.Falling as falling;

use crate::search::Search;
use base_core::Memory;
use base_graph::Graph;
use std::alloc::Global;

/// A row below which none is on a loop: the least on any, by the strong components of the graph, which are numbered as
/// Kosaraju and Sharir do it; 0 if the numbers are of no use. In time linear in rows and edges.
pub(crate) fn loop_floor(alloc: Global, g: &Graph) -> Result<u32, Memory>
    ensures { IfOk result (λ floor. (b : ℕ) → IsOnLoop (needed g.now) b → floor ≤ b) }
{
    let numbers = component_numbers(alloc, g)?;
    let floor = least_alike(g, &numbers);
    if all_fall(g, &numbers, floor) {
        Ok(floor)
    } else {
        Ok(0)
    }
}

// The strong components of the graph in order: what a row needs has the same number, or a lesser one.
fn component_numbers(alloc: Global, g: &Graph) -> Result<Vec<u32>, Memory> {
    let mut forward = Search::new(alloc, g.n, g.edges.as_slice())?;
    for row in 0..g.n {
        forward.visit(row)?;
    }
    let order = forward.take_left(alloc);
    let back = turned(alloc, g)?;
    let mut backward = Search::new(alloc, g.n, back.as_slice())?;
    let mut numbers = vec![in alloc; 0; g.n as usize]?;
    let mut number: u32 = 0;
    for k in 0..order.len() {
        backward.visit(order[order.len() - 1 - k])?;
        for row in backward.take_left(alloc).iter() {
            set_number(&mut numbers, *row, number);
        }
        number = number.saturating_add(1);
    }
    Ok(numbers)
}

// The edges, each from its second row to its first.
fn turned(alloc: Global, g: &Graph) -> Result<Vec<(u32, u32)>, Memory> {
    let mut edges = Vec::new(alloc);
    for edge in g.edges.iter() {
        edges.push((edge.1, edge.0))?;
    }
    Ok(edges)
}

fn set_number(numbers: &mut [u32], row: u32, number: u32) {
    let at = row as usize;
    if at < numbers.len() {
        numbers[at] = number;
    }
}

// The least row that needs one of the same number, or else how many rows there are.
fn least_alike(g: &Graph, numbers: &[u32]) -> u32 {
    let mut least = g.n;
    for edge in g.edges.iter() {
        if number_at(numbers, edge.0) == number_at(numbers, edge.1) {
            least = least.min(edge.1);
        }
    }
    least
}

fn number_at(numbers: &[u32], row: u32) -> u32
    ensures { result ≡ falling.number_at numbers.now row }
{
    numbers.get(row as usize).copied().unwrap_or(0)
}

fn falls(numbers: &[u32], floor: u32, edge: (u32, u32)) -> bool
    ensures { result ≡ falling.falls numbers.now floor edge }
{
    let needed = number_at(numbers, edge.0);
    let own = number_at(numbers, edge.1);
    needed < own || needed == own && floor <= edge.1
}

fn all_fall(g: &Graph, numbers: &[u32], floor: u32) -> bool
    ensures { result ≡ falling.all_fall g.now numbers.now floor }
{
    g.edges.iter().all(|edge| falls(numbers, floor, *edge))
}
