// What gives each slot of a file its value.
ghost use Rattle.std.specs.Prelude.{◌≡◌, IfOk, OnOk, map, replicate, slice_index, slice_set, flat_map};
ghost use Rattle.lustre_syntax.specs.Plain.{expr_tree, file_tree};
ghost use Rattle.lustre_slots.specs.declared.placed.Source.TheVariants.{Row};
ghost use Rattle.lustre_slots.specs.Layout.{sizes_of, root_of};
ghost use Rattle.lustre_slots.specs.Sources.{argument_links, output_links, links_of, linked};

use crate::extents::sum;
use crate::placed::{Placed, Source};
use crate::plan::Plan;
use base_core::Memory;
use lustre_syntax::{LusEq, LusExpr};
use std::alloc::Global;

// A slot gets its source; past the end nothing does.
fn link(sources: &mut [Source], slot: usize, source: Source)
    ensures { sources.new ≡ slice_set sources.old slot source }
{
    if slot < sources.len() {
        sources[slot] = source;
    }
}

// The expressions of an equation give slots one after another.
fn link_arguments(
    of: Placed,
    equation: usize,
    at: usize,
    values: &[LusExpr],
    sources: &mut [Source],
) -> Result<(), Memory>
    ensures { OnOk result (sources.new
        ≡ linked sources.old (argument_links of equation at 0 (map expr_tree values.now))) }
{
    for k in 0..values.len() {
        let source = Source::Expression {
            of,
            equation,
            expression: k,
        };
        link(sources, sum(at, k)?, source);
    }
    Ok(())
}

// Slots one after another give names of an instance.
fn link_outputs(of: Placed, at: usize, names: &[u32], sources: &mut [Source]) -> Result<(), Memory>
    ensures { OnOk result (sources.new ≡ linked sources.old (output_links of at names.now)) }
{
    for k in 0..names.len() {
        let slot = sum(of.base, names[k] as usize)?;
        link(sources, slot, Source::Slot(sum(at, k)?));
    }
    Ok(())
}

// What the equations of an instance give.
fn link_instance(plan: &Plan, of: Placed, sources: &mut [Source]) -> Result<(), Memory>
    ensures { OnOk result (sources.new
        ≡ linked sources.old (links_of (file_tree plan.now.file.now) of)) }
{
    let equations = plan.equations(of.node);
    let mut at = sum(of.base, plan.names(of.node))?;
    for i in 0..equations.len() {
        match &equations[i] {
            LusEq::Set { name, .. } => {
                let source = Source::Expression {
                    of,
                    equation: i,
                    expression: 0,
                };
                link(sources, sum(of.base, *name as usize)?, source);
            }
            LusEq::Call {
                names,
                node,
                values,
                ..
            } => {
                link_arguments(of, i, at, values, sources)?;
                let outputs = sum(at, plan.inputs(*node as usize))?;
                link_outputs(of, outputs, names.wires(), sources)?;
                at = sum(at, plan.size(*node as usize))?;
            }
        }
    }
    Ok(())
}

/// What gives each slot its value, by the equations of these instances.
pub(crate) fn sources_of(
    alloc: Global,
    plan: &Plan,
    instances: &[Placed],
) -> Result<Vec<Source>, Memory>
    ensures { IfOk result (λ v. let f = file_tree plan.now.file.now in
        v.items ≡ linked (replicate (slice_index (sizes_of f) (root_of f).node) Row)
        (flat_map (links_of f) instances.now)) }
{
    let mut sources = Vec::from_elem(alloc, Source::Row, plan.size(plan.root().node))?;
    for of in instances {
        link_instance(plan, *of, sources.as_mut_slice())?;
    }
    Ok(sources)
}
