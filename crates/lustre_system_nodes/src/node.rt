// The node of a system.
ghost use Rattle.std.specs.Prelude.{◌≡◌, ℕ, List, Option, IfOk, map};
ghost use Rattle.diagram_meaning.specs.Diagram.{Diagram};
ghost use Rattle.lustre_syntax.specs.Plain.{equation_tree, node_tree};
ghost use Rattle.lustre_system.specs.SystemNodes as nodes;
ghost use Rattle.lustre_expressions.specs.Placed.{placed_by};
ghost use Rattle.lustre_system_nodes.specs.Named.{IsNamed, placed_system};

use crate::named::NamedSystem;
use crate::parts::input_count;
use base_core::Memory;
use emit_row_facts::system_name;
use lustre_expressions::small;
use lustre_syntax::{LusEq, LusNode};
use std::alloc::Global;

/// The node of a system with these equations.
pub fn system_node(
    alloc: Global,
    named: NamedSystem,
    equations: Vec<LusEq>,
) -> Result<LusNode, Memory>
    ensures { IfOk result (λ n. (callee : List ℕ → ℕ) (d : Diagram) (s : Option ℕ) →
        IsNamed d s named → map equation_tree equations.items ≡ placed_system callee d s →
        node_tree n ≡ placed_by callee (nodes.system_node d s)) }
{
    let name = system_name(alloc, named.parts.row)?;
    let inputs = input_count(&named.parts)?;
    let outputs = small(named.parts.outputs.wires().len())?;
    Ok(LusNode {
        name,
        line: 0,
        inputs,
        outputs,
        names: named.names.into_list(),
        equations,
    })
}
