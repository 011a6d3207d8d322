// The names of the nodes.
ghost use Rattle.std.specs.Prelude.{◌≡◌, ◌++◌, ◌∷◌, [], IfOk, OnOk, map};
ghost use Rattle.diagram_meaning.specs.Nested.{row_of, system_of};
ghost use Rattle.emit_shape.specs.Names.{root_name};
ghost use Rattle.modules_profile.specs.Systems as named;
ghost use Rattle.lustre_emitter.specs.Listed.{listed_rows};

use base_core::{Memory, Text};
use c_syntax::Pure;
use diagram_meaning::Subsystem;
use emit_row_facts::{named, system_name};
use std::alloc::Global;

// The row of a system, none for the root.
fn row(s: &Subsystem) -> Option<u32>
    ensures { result ≡ row_of (system_of s.now) }
{
    s.row
}

// Adds the names of functions.
fn push_functions(alloc: Global, texts: &mut Vec<Text>, functions: &[Pure]) -> Result<(), Memory>
    ensures { OnOk result (texts.new.items
        ≡ texts.old.items ++ map (λ f. f.name) functions.now) }
{
    for function in functions {
        texts.push(Text::copy_of(alloc, function.name.bytes())?)?;
    }
    Ok(())
}

// Adds the names of systems.
fn push_systems(alloc: Global, texts: &mut Vec<Text>, systems: &[&Subsystem]) -> Result<(), Memory>
    ensures { OnOk result (texts.new.items
        ≡ texts.old.items ++ map named.system_name (listed_rows systems.now)) }
{
    for system in systems {
        texts.push(system_name(alloc, row(system))?)?;
    }
    Ok(())
}

/// The names of all nodes: of the functions, of these systems and of the root.
pub(crate) fn node_texts(
    alloc: Global,
    functions: &[Pure],
    systems: &[&Subsystem],
) -> Result<Vec<Text>, Memory>
    ensures { IfOk result (λ v. v.items ≡ map (λ f. f.name) functions.now
        ++ map named.system_name (listed_rows systems.now) ++ root_name ∷ []) }
{
    let mut texts = Vec::new(alloc);
    push_functions(alloc, &mut texts, functions)?;
    push_systems(alloc, &mut texts, systems)?;
    texts.push(named(alloc, "root")?)?;
    Ok(texts)
}
