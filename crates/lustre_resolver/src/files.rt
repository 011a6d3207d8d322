// Nodes and files.
ghost use Rattle.std.specs.Prelude.{◌≡◌, false, map, OnOk, IfOk};
ghost use Rattle.c_syntax.specs.Outputs.{has_name};
ghost use Rattle.c_rules.specs.Gives.{Gives};
ghost use Rattle.lustre_syntax.specs.Plain.{node_tree, file_tree};
ghost use Rattle.lustre_syntax.specs.Tree.{node_texts};
ghost use Rattle.lustre_grammar.specs.WrittenTrees.{node_of, file_of};
ghost use Rattle.lustre_rules.specs.Resolve as rules;
ghost use Rattle.lustre_resolver.specs.Scopes.{nodes_of};

use crate::equations::resolve_equations;
use crate::heads::resolve_head;
use crate::known::{Names, Nodes, Place};
use base_core::Text;
use lustre_grammar::{LusWrittenFile, LusWrittenNode, ReadLusFault};
use lustre_syntax::{LusFile, LusNode};
use std::alloc::Global;

/// What a node stands for, whose head keeps the rules.
fn resolve_body<'a>(
    alloc: Global,
    earlier: &Nodes<'a>,
    n: &LusWrittenNode<'a>,
) -> Result<LusNode, ReadLusFault>
    ensures resolved { Gives node_tree result
        (rules.resolve_body (nodes_of earlier.now) (node_of n.now)) }
    ensures named { IfOk result (λ node. node.name ≡ n.now.name.now) }
{
    let names = Names::of(alloc, n)?;
    let (Ok(inputs), Ok(outputs)) = (
        u32::try_from(n.inputs.len()),
        u32::try_from(n.outputs.len()),
    ) else {
        return Err(ReadLusFault::Memory);
    };
    let place = Place {
        earlier,
        names: &names,
        inputs,
    };
    let equations = resolve_equations(alloc, &place, n.equations.as_slice())?;
    let name = Text::copy_of(alloc, n.name)?;
    let Names { declared, .. } = names;
    Ok(LusNode {
        name,
        line: n.line,
        inputs,
        outputs,
        names: declared,
        equations,
    })
}

/// What a node stands for.
fn resolve_node<'a>(
    alloc: Global,
    earlier: &Nodes<'a>,
    is_last: bool,
    n: &LusWrittenNode<'a>,
) -> Result<LusNode, ReadLusFault>
    ensures resolved { Gives node_tree result
        (rules.resolve_node (nodes_of earlier.now) is_last (node_of n.now)) }
    ensures new { OnOk result (has_name (node_texts (nodes_of earlier.now)) n.now.name.now ≡ false) }
    ensures named { IfOk result (λ node. node.name ≡ n.now.name.now) }
{
    resolve_head(alloc, earlier, is_last, n)?;
    resolve_body(alloc, earlier, n)
}

/// Adds what nodes stand for to those before them, each known to those after it; the last of them ends the file.
fn resolve_nodes<'a>(
    alloc: Global,
    known: &mut Nodes<'a>,
    nodes: &[LusWrittenNode<'a>],
) -> Result<(), ReadLusFault>
    ensures { Gives (λ _. nodes_of known.new) result
        (rules.resolve_nodes (nodes_of known.old) (map node_of nodes.now)) }
{
    for (i, n) in nodes.iter().enumerate() {
        let node = resolve_node(alloc, known, i + 1 == nodes.len(), n)?;
        known.push(n.name, node)?;
    }
    Ok(())
}

/// The file that a written file stands for.
///
/// # Errors
///
/// `Refused` with the first construct that breaks a static rule, and `Memory` where memory ran out.
pub fn resolve_file(alloc: Global, f: &LusWrittenFile) -> Result<LusFile, ReadLusFault>
    ensures { Gives file_tree result (rules.resolve_file (file_of f.now)) }
{
    let mut known = Nodes::new(alloc);
    resolve_nodes(alloc, &mut known, f.nodes.as_slice())?;
    let Nodes { items, .. } = known;
    Ok(LusFile { nodes: items })
}
