ghost use Rattle.std.specs.Prelude.{◌≡◌, ℕ, ◌+◌, ◌-◌, ◌<◌, ◌≤◌, ◌↔◌, ◌^◌, IfOk, IsTrue, IsBitSet, length, slice_index};
ghost use Rattle.base_graph.specs.Masks.{AreMasks};
ghost use Rattle.diagram_needs.specs.Least.{IsLeastOf};
ghost use Rattle.diagram_needs.specs.Needed.{needed, IsOnLoop};
ghost use Rattle.diagram_needs.specs.Blocks.{IsInBlock, AreBlockBits, IsOnLoopIn};

use crate::floor::loop_floor;
use crate::least::lesser;
use base_core::Memory;
use base_graph::{Graph, masks};
use std::alloc::Global;

// The least row on any loop, which is looked for from the block of the floor on.
pub(crate) fn least_on_loop(alloc: Global, g: &Graph) -> Result<Option<u32>, Memory>
    ensures { IfOk result (IsLeastOf (IsOnLoop (needed g.now))) }
{
    let floor = loop_floor(alloc, g)?;
    for block in floor / 64..g.n {
        let first = u64::from(block) * 64;
        if let Some(row) = least_in_block(alloc, g, first)? {
            return Ok(Some(row));
        }
    }
    Ok(None)
}

// The least row on a loop among the 64 from `first` on.
fn least_in_block(alloc: Global, g: &Graph, first: u64) -> Result<Option<u32>, Memory>
    ensures { IfOk result (IsLeastOf (IsOnLoopIn (needed g.now) first)) }
{
    let bits = block_bits(alloc, g.n, first)?;
    let reached = masks(alloc, g, &bits)?;
    Ok(least_closed(g, &bits, &reached, first))
}

// A bit for each of the 64 rows from `first` on.
fn block_bits(alloc: Global, n: u32, first: u64) -> Result<Vec<u64>, Memory>
    ensures { IfOk result (λ v. AreBlockBits n first v.items) }
{
    let mut bits = Vec::new(alloc);
    for b in 0..n {
        bits.push(block_bit(b, first))?;
    }
    Ok(bits)
}

// The bit of row `b`.
fn block_bit(b: u32, first: u64) -> u64
    ensures { (k : ℕ) → IsBitSet result k ↔ ((b ≡ first + k) × (k < 64)) }
{
    let row = u64::from(b);
    if first <= row && row - first < 64 {
        1 << (row - first)
    } else {
        0
    }
}

// The least row among the 64 from `first` on that needs one which needs it in turn, by what is reached from each.
fn least_closed(g: &Graph, bits: &[u64], reached: &[u64], first: u64) -> Option<u32>
    requires own { AreBlockBits g.now.n first bits.now }
    requires masks { AreMasks g.now bits.now reached.now }
    ensures { IsLeastOf (IsOnLoopIn (needed g.now) first) result }
{
    let mut least = None;
    for edge in g.edges.iter() {
        if has_bit_of(reached[edge.0 as usize], edge.1, first) {
            least = Some(lesser(least, edge.1));
        }
    }
    least
}

// Whether row `b` is among the 64 from `first` on, and its bit is in the mask.
fn has_bit_of(mask: u64, b: u32, first: u64) -> bool
    ensures { IsTrue result ↔ (IsInBlock first b × IsBitSet mask (b - first)) }
{
    let row = u64::from(b);
    first <= row && row - first < 64 && has_bit(mask, row - first)
}

// Whether bit `k` is in the mask.
#[tactic(auto, using(std::proofs::lemmas::Nat::bit_set_by_shift))]
fn has_bit(mask: u64, k: u64) -> bool
    requires { k < 64 }
    ensures { IsTrue result ↔ IsBitSet mask k }
{
    (mask >> k) & 1 == 1
}
