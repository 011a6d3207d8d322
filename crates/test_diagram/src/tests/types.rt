ghost use Rattle.std.specs.Prelude.{◌≡◌, [], ◌∷◌, IfOk, None};
ghost use Rattle.base_core.specs.declared.base.Control.TheVariants.{Plain};
ghost use Rattle.diagram_meaning.specs.Nested.{system, no_more, system_of};
ghost use Rattle.test_diagram.specs.Samples.{inport_row};

use super::INT8;
use base_core::{Control, Memory, Place, TimeText, Wires};
use base_fixed_point::{FixType, TypeText};
use base_refusals::{Refusal, TypeWhy};
use diagram_blocks::Kind;
use diagram_meaning::{BuildFault, Row, Subsystem, Table, Tree};
use diagram_types::infer_types;
use std::alloc::Global;
use std::test::Fail;

/// An input with this text of its type, as the first row of the root.
fn inport(alloc: Global, text: TypeText) -> Row
    ensures { result ≡ inport_row text }
{
    Row {
        place: Place { row: 0, line: 3 },
        owner: None,
        kind: Kind::Inport { port: 1 },
        inputs: Wires::new(Vec::new(alloc)),
        type_text: text,
        time_text: TimeText::Inherit,
    }
}

/// A root with one row.
fn root_of_one(alloc: Global) -> Result<Subsystem, Memory>
    ensures { IfOk result (λ root. system_of root ≡ system None 2 Plain (0 ∷ []) no_more) }
{
    Ok(Subsystem {
        row: None,
        line: 2,
        control: Control::Plain,
        own: Wires::new(vec![in alloc; 0]?),
        children: Vec::new(alloc),
    })
}

/// A tree of one input with this text of its type.
fn tree_of_one(alloc: Global, text: TypeText) -> Result<Tree, Memory> {
    let rows = vec![in alloc; inport(alloc, text)]?;
    let root = root_of_one(alloc)?;
    let table = Table {
        rows,
        fixed_step: None,
    };
    Ok(Tree::new(table, root))
}

/// The line of the row that is refused for lack of a type, and why it has none.
fn missing_type(fault: &BuildFault) -> Option<(u32, TypeWhy)> {
    match fault {
        BuildFault::Refused(Refusal::NoType { line, why }) => Some((*line, *why)),
        _ => None,
    }
}

/// The type of the input of such a tree, or the line of that row and why it has none.
fn type_of_input(alloc: Global, text: TypeText) -> Result<Result<FixType, (u32, TypeWhy)>, Fail> {
    let tree = tree_of_one(alloc, text)?;
    match infer_types(alloc, &tree) {
        Ok(types) => Ok(Ok(*types.first().ok_or("no row")?)),
        Err(fault) => Ok(Err(missing_type(&fault).ok_or("another fault")?)),
    }
}

// An input has the type that it writes, and one that writes none is refused.
#[test]
fn types_of_an_input(rt: HostRuntime) -> Result<(), Fail> {
    for &(text, expected) in &[
        (TypeText::Fixed(INT8), Ok(INT8)),
        (TypeText::Inherit, Err((3, TypeWhy::Missing))),
    ] {
        assert_eq!(rt; type_of_input(rt.alloc(), text)?, expected);
    }
    Ok(())
}
