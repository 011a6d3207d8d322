// Nodes: their declared names and their equations.
ghost use Rattle.std.specs.Prelude.{◌≡◌, ◌++◌, map, flat_map, take, drop, codes, OnOk};
ghost use Rattle.lustre_syntax.specs.Tree.{node_texts};
ghost use Rattle.lustre_syntax.specs.Plain.{declared_names, equation_tree, node_tree};
ghost use Rattle.lustre_grammar.specs.Grammar.{type_text};
ghost use Rattle.lustre_printer.specs.Printing.{parted, declared_bytes, ports_bytes, others_bytes, interface_bytes, equation_bytes, node_bytes};
ghost use Rattle.lustre_printer.specs.Scopes.{names_in, nodes_in};

use crate::printing::equations::print_equation;
use crate::printing::names::Scope;
use crate::printing::push;
use base_core::Text;
use lustre_syntax::{LusEq, LusNode};
use std::alloc::{AllocError, Global};

fn type_text(is_bool: bool) -> &'static [u8]
    ensures { result.now ≡ type_text is_bool }
{
    if is_bool { b"bool" } else { b"int" }
}

fn print_declared(out: &mut Vec<u8>, name: &(Text, bool)) -> Result<(), AllocError>
    ensures { OnOk result (out.new.items
        ≡ out.old.items ++ declared_bytes (record { text = name.now.0; type = name.now.1 })) }
{
    push(out, name.0.bytes())?;
    push(out, b": ")?;
    push(out, type_text(name.1))
}

// Declared names with `; ` between each two.
fn print_declared_names(out: &mut Vec<u8>, names: &[(Text, bool)]) -> Result<(), AllocError>
    ensures { OnOk result (out.new.items ≡ out.old.items
        ++ parted (codes "; ") (map declared_bytes (declared_names names.now))) }
{
    let Some((first, later)) = names.split_first() else {
        return Ok(());
    };
    print_declared(out, first)?;
    for name in later {
        push(out, b"; ")?;
        print_declared(out, name)?;
    }
    Ok(())
}

// Inputs or outputs.
fn print_ports(out: &mut Vec<u8>, names: &[(Text, bool)]) -> Result<(), AllocError>
    ensures { OnOk result (out.new.items
        ≡ out.old.items ++ ports_bytes (declared_names names.now)) }
{
    push(out, b"(")?;
    print_declared_names(out, names)?;
    push(out, b")")
}

// `var` and the further names, where there are any.
fn print_others(out: &mut Vec<u8>, names: &[(Text, bool)]) -> Result<(), AllocError>
    ensures { OnOk result (out.new.items
        ≡ out.old.items ++ others_bytes (declared_names names.now)) }
{
    if names.is_empty() {
        return Ok(());
    }
    push(out, b"var\n")?;
    for name in names {
        print_declared(out, name)?;
        push(out, b";\n")?;
    }
    Ok(())
}

// The first `count` names and the others. Where there are fewer, all of them are the first ones.
fn split_names(names: &[(Text, bool)], count: u32) -> (&[(Text, bool)], &[(Text, bool)])
    ensures first { declared_names result.0.now ≡ take count (declared_names names.now) }
    ensures others { declared_names result.1.now ≡ drop count (declared_names names.now) }
{
    names.split_at(names.len().min(count as usize))
}

// The name of a node with its inputs and outputs.
fn print_interface(out: &mut Vec<u8>, node: &LusNode) -> Result<(), AllocError>
    ensures { OnOk result (out.new.items ≡ out.old.items ++ interface_bytes (node_tree node.now)) }
{
    let (inputs, rest) = split_names(&node.names, node.inputs);
    let (outputs, _) = split_names(rest, node.outputs);
    push(out, b"node ")?;
    push(out, node.name.bytes())?;
    push(out, b" ")?;
    print_ports(out, inputs)?;
    push(out, b"\nreturns ")?;
    print_ports(out, outputs)?;
    push(out, b";\n")
}

fn print_equations(
    alloc: Global,
    out: &mut Vec<u8>,
    scope: &Scope,
    equations: &[LusEq],
) -> Result<(), AllocError>
    ensures { OnOk result (out.new.items ≡ out.old.items
        ++ flat_map (equation_bytes (nodes_in scope.now) (names_in scope.now))
        (map equation_tree equations.now)) }
{
    for e in equations {
        print_equation(alloc, out, scope, e)?;
    }
    Ok(())
}

pub(super) fn print_node(
    alloc: Global,
    out: &mut Vec<u8>,
    nodes: &[LusNode],
    node: &LusNode,
) -> Result<(), AllocError>
    ensures { OnOk result (out.new.items
        ≡ out.old.items ++ node_bytes (node_texts (map node_tree nodes.now)) (node_tree node.now)) }
{
    let (_, rest) = split_names(&node.names, node.inputs);
    let (_, others) = split_names(rest, node.outputs);
    print_interface(out, node)?;
    print_others(out, others)?;
    push(out, b"let\n")?;
    let scope = Scope {
        nodes,
        names: &node.names,
    };
    print_equations(alloc, out, &scope, &node.equations)?;
    push(out, b"tel;\n")
}
