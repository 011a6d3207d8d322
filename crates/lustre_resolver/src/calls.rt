// Calls of nodes.
ghost use Rattle.std.specs.Prelude.{◌≡◌, [], map};
ghost use Rattle.lustre_syntax.specs.Plain.{declared_names, node_tree};
ghost use Rattle.lustre_syntax.specs.Tree.{types_of};
ghost use Rattle.lustre_syntax.specs.Typing.{input_types, output_types};
ghost use Rattle.lustre_grammar.specs.WrittenTrees.{expr_of};
ghost use Rattle.lustre_rules.specs.Resolve as rules;
ghost use Rattle.lustre_resolver.specs.Scopes.{scope_of};

use crate::known::Place;
use crate::typing::{all_fit, have_types};
use base_core::Text;
use c_rules::unless_fault;
use c_syntax::CKind;
use lustre_grammar::LusWrittenExpr;
use lustre_syntax::LusNode;

/// The inputs of a node.
fn inputs_of(node: &LusNode) -> &[(Text, bool)]
    ensures { types_of (declared_names result.now) ≡ input_types (node_tree node.now) }
{
    let count = node.names.len().min(node.inputs as usize);
    &node.names[..count]
}

/// The outputs of a node.
fn outputs_of(node: &LusNode) -> &[(Text, bool)]
    ensures { types_of (declared_names result.now) ≡ output_types (node_tree node.now) }
{
    let inputs = node.names.len().min(node.inputs as usize);
    let others = &node.names[inputs..];
    let count = others.len().min(node.outputs as usize);
    &others[..count]
}

/// The position of the node that a call of these names and expressions is of: a name for each of its outputs and an expression
/// for each input, of their types.
pub(crate) fn resolve_callee(
    place: &Place,
    names: &[u32],
    callee: &[u8],
    values: &[LusWrittenExpr],
) -> Result<u32, CKind>
    ensures { result ≡ rules.resolve_callee (scope_of place.now []) names.now callee.now
        (map expr_of values.now) }
{
    let Some((k, node)) = place.earlier.find(callee) else {
        return Err(CKind::Name);
    };
    let outputs_agree = have_types(place.names, names, outputs_of(node));
    unless_fault(outputs_agree, CKind::TypeRule)?;
    let inputs_agree = all_fit(place.names, values, inputs_of(node));
    unless_fault(inputs_agree, CKind::TypeRule)?;
    Ok(k)
}
