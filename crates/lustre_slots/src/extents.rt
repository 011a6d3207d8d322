// How much room an instance of each node takes.
ghost use Rattle.std.specs.Prelude.{◌≡◌, ◌+◌, [], IfOk, map, slice_index};
ghost use Rattle.lustre_syntax.specs.Plain.{node_tree};
ghost use Rattle.lustre_flows.specs.Instances.{by_node};
ghost use Rattle.lustre_slots.specs.Layout.{node_size};
ghost use Rattle.lustre_slots.specs.Extents.{slots_in};

use base_core::Memory;
use lustre_syntax::{LusEq, LusNode};
use std::alloc::Global;

/// The room of an instance with those inside it.
#[derive(Clone, Copy, Debug, PartialEq, Eq, Drop)]
pub(crate) struct Extent {
    /// How many slots it has.
    pub(crate) slots: usize,
    /// How many instances there are.
    pub(crate) instances: usize,
}

// The most slots and instances of a file.
const LIMIT: usize = 1 << 32;

/// A sum, unless it is above the limit.
pub(crate) fn sum(a: usize, b: usize) -> Result<usize, Memory>
    ensures { IfOk result (λ n. n ≡ a + b) }
{
    match a.checked_add(b) {
        Some(n) if n <= LIMIT => Ok(n),
        _ => Err(Memory),
    }
}

impl Extent {
    // Both together.
    fn with(self, other: Extent) -> Result<Extent, Memory>
        ensures { IfOk result (λ e. e.slots ≡ self.slots + other.slots) }
    {
        Ok(Extent {
            slots: sum(self.slots, other.slots)?,
            instances: sum(self.instances, other.instances)?,
        })
    }
}

/// The room of an instance of the node at a position; none past the end.
pub(crate) fn extent_at(extents: &[Extent], node: usize) -> Extent
    ensures { result.slots ≡ slice_index (slots_in extents.now) node }
{
    match extents.get(node) {
        Some(extent) => *extent,
        None => Extent {
            slots: 0,
            instances: 0,
        },
    }
}

// The room of an instance of a node, by that of the earlier ones.
fn extent_of(earlier: &[Extent], node: &LusNode) -> Result<Extent, Memory>
    ensures { IfOk result (λ e. e.slots ≡ node_size (slots_in earlier.now) (node_tree node.now)) }
{
    let mut extent = Extent {
        slots: node.names.len(),
        instances: 1,
    };
    for equation in &node.equations {
        if let LusEq::Call { node: callee, .. } = equation {
            extent = extent.with(extent_at(earlier, *callee as usize))?;
        }
    }
    Ok(extent)
}

/// The room of an instance of each node. Fails where memory runs out, or where a node has more slots or instances than fit.
pub(crate) fn extents_of(alloc: Global, nodes: &[LusNode]) -> Result<Vec<Extent>, Memory>
    ensures { IfOk result (λ v. slots_in v.items ≡ by_node node_size [] (map node_tree nodes.now)) }
{
    let mut extents = Vec::with_capacity(alloc, nodes.len())?;
    for node in nodes {
        let extent = extent_of(&extents, node)?;
        extents.push(extent)?;
    }
    Ok(extents)
}
