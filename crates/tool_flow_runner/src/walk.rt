// What a walk over a trace holds besides the flows.
ghost use Rattle.std.specs.Prelude.{◌≡◌, length, IfOk};
ghost use Rattle.lustre_syntax.specs.Plain.{file_tree};
ghost use Rattle.lustre_flows.specs.Ticks.{last_node};

use lustre_syntax::LusFile;
use std::alloc::{AllocError, Global};

/// The numbers of a row and of its outputs, and how many ticks there were.
#[derive(Drop)]
pub(crate) struct Walk {
    pub(crate) row: Vec<i64>,
    pub(crate) outputs: Vec<i64>,
    pub(crate) ticks: u64,
}

impl Walk {
    // A walk that has not begun, over rows for the last node of a file.
    pub(crate) fn new(alloc: Global, file: &LusFile) -> Result<Walk, AllocError>
        ensures row { IfOk result
            (λ walk. length walk.row.items ≡ (last_node (file_tree file.now)).inputs) }
        ensures outputs { IfOk result
            (λ walk. length walk.outputs.items ≡ (last_node (file_tree file.now)).outputs) }
        ensures ticks { IfOk result (λ walk. walk.ticks ≡ 0) }
    {
        let (inputs, outputs) = ports_of(file);
        Ok(Walk {
            row: vec![in alloc; 0i64; inputs]?,
            outputs: vec![in alloc; 0i64; outputs]?,
            ticks: 0,
        })
    }
}

// How many inputs and outputs the last node has.
fn ports_of(file: &LusFile) -> (usize, usize)
    ensures inputs { result.0 ≡ (last_node (file_tree file.now)).inputs }
    ensures outputs { result.1 ≡ (last_node (file_tree file.now)).outputs }
{
    match file.nodes.last() {
        Some(node) => (node.inputs as usize, node.outputs as usize),
        None => (0, 0),
    }
}
