ghost use Rattle.std.specs.Prelude.{◌≡◌, ◌++◌, map, flat_map, IfOk, OnOk};
ghost use Rattle.lustre_syntax.specs.Lawful.{IsLawful};
ghost use Rattle.lustre_syntax.specs.Plain.{node_tree, file_tree};
ghost use Rattle.lustre_syntax.specs.Tree.{node_texts};
ghost use Rattle.lustre_rules.specs.Reading.{IsTextOf};
ghost use Rattle.lustre_printer.specs.Printing.{node_bytes, file_bytes};

mod equations;
mod names;
mod nodes;

use base_core::Memory;
use lustre_syntax::{LusFile, LusNode};
use std::alloc::{AllocError, Global};

/// The text of a lawful file: a line for each declared name and for each equation.
/// It has one reading: the file, except for the lines, which are those of the text.
#[tactic(auto, using(crate::proofs::PrintedReading::text_printed))]
pub fn print_lustre(alloc: Global, f: &LusFile) -> Result<Vec<u8>, Memory>
    requires { IsLawful (file_tree f.now) }
    ensures { IfOk result (λ text. IsTextOf text.items (file_tree f.now)) }
{
    match text_of(alloc, f) {
        Ok(text) => Ok(text),
        Err(_) => Err(Memory),
    }
}

fn text_of(alloc: Global, file: &LusFile) -> Result<Vec<u8>, AllocError>
    ensures { IfOk result (λ text. text.items ≡ file_bytes (file_tree file.now)) }
{
    let mut out = Vec::new(alloc);
    print_nodes(alloc, &mut out, &file.nodes)?;
    Ok(out)
}

fn print_nodes(alloc: Global, out: &mut Vec<u8>, nodes: &[LusNode]) -> Result<(), AllocError>
    ensures { OnOk result (out.new.items ≡ out.old.items
        ++ flat_map (node_bytes (node_texts (map node_tree nodes.now))) (map node_tree nodes.now)) }
{
    for node in nodes {
        nodes::print_node(alloc, out, nodes, node)?;
    }
    Ok(())
}

// Appends a text.
fn push(out: &mut Vec<u8>, text: &[u8]) -> Result<(), AllocError>
    ensures { OnOk result (out.new.items ≡ out.old.items ++ text.now) }
{
    out.extend_from_slice(text)
}
