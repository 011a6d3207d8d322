// The whole file.
ghost use Rattle.std.specs.Prelude.{◌≡◌, None, IfOk, IfErr, OnOk, map, reverse};
ghost use Rattle.c_syntax.specs.Plain.{pure_tree};
ghost use Rattle.diagram_meaning.specs.ResolvedTree.{diagram_of};
ghost use Rattle.emit_prelude.specs.Bodies.{function_trees};
ghost use Rattle.modules_profile.specs.Systems.{systems as systems_of_rows};
ghost use Rattle.lustre_syntax.specs.Plain.{file_tree, node_tree};
ghost use Rattle.lustre_system.specs.File.{lustre_file, named_file};
ghost use Rattle.lustre_expressions.specs.Found.{place_in};
ghost use Rattle.lustre_expressions.specs.Placed.{placed_by};
ghost use Rattle.lustre_right.specs.LongDelays as delays;
ghost use Rattle.lustre_emitter.specs.Faults.{IsFaultOf};
ghost use Rattle.lustre_emitter.specs.Listed.{listed_rows, AreAgreed};

use crate::fault::LusOfFault;
use crate::functions::push_functions;
use crate::long_delays::long_delay;
use crate::root::root_node;
use crate::system_nodes::push_systems;
use crate::systems::systems_of;
use crate::texts::node_texts;
use base_core::Memory;
use diagram_meaning::{Resolved, Subsystem};
use emit_prelude::prelude;
use lustre_expressions::{Callees, places_of_texts};
use lustre_syntax::{LusFile, LusNode};
use std::alloc::Global;

// The nodes of a model, which call each other by the places of these names.
fn nodes_of(
    alloc: Global,
    r: &Resolved,
    callees: &Callees,
    systems: &[&Subsystem],
) -> Result<Vec<LusNode>, Memory>
    requires functions { map pure_tree callees.now.functions.now ≡ function_trees }
    requires rows { listed_rows systems.now ≡ reverse (systems_of_rows r.now.tree.table.rows) }
    requires agree { AreAgreed r.now.tree.table.rows systems.now }
    ensures { IfOk result (λ v. map node_tree v.items
        ≡ map (placed_by (place_in callees.now.places.now))
        (named_file (diagram_of r.now) r.now.times.hyper)) }
{
    let mut nodes = Vec::new(alloc);
    push_functions(alloc, callees, &mut nodes)?;
    push_systems(alloc, r, callees, systems, &mut nodes)?;
    nodes.push(root_node(alloc, r, callees)?)?;
    Ok(nodes)
}

// The file of a model, however long its delays are.
fn file_of(alloc: Global, r: &Resolved) -> Result<LusFile, Memory>
    ensures { IfOk result (λ f. file_tree f ≡ lustre_file (diagram_of r.now) r.now.times.hyper) }
{
    let functions = prelude(alloc)?;
    let systems = systems_of(alloc, r)?;
    let texts = node_texts(alloc, functions.as_slice(), systems.as_slice())?;
    let places = places_of_texts(alloc, texts.as_slice())?;
    let callees = Callees {
        places: &places,
        functions: functions.as_slice(),
    };
    let nodes = nodes_of(alloc, r, &callees, systems.as_slice())?;
    Ok(LusFile { nodes })
}

/// The file of Lustre of a model.
///
/// # Errors
///
/// `LongDelay` exactly where a Delay has more than 64 samples, with the place of the first one; else `Memory`.
pub fn lustre_of(alloc: Global, r: &Resolved) -> Result<LusFile, LusOfFault>
    ensures file { IfOk result
        (λ f. file_tree f ≡ lustre_file (diagram_of r.now) r.now.times.hyper) }
    ensures short { OnOk result (delays.long_delay (diagram_of r.now) ≡ None) }
    ensures fault { IfErr result (IsFaultOf (diagram_of r.now)) }
{
    if let Some(place) = long_delay(r) {
        return Err(LusOfFault::LongDelay(place));
    }
    Ok(file_of(alloc, r)?)
}
