ghost use Rattle.std.specs.Prelude.{◌≡◌, ◌<◌, ◌++◌, ◌^◌, length, slice_get, option_map, IfOk, OnOk};
ghost use Rattle.mdl_tree.specs.Values.{trees_of};
ghost use Rattle.std.specs.List.{list_any};
ghost use Rattle.mdl_library.specs.References as plain;
ghost use Rattle.mdl_library.specs.HeldGraph.{marks};
ghost use Rattle.mdl_library.specs.Held.{library_seen};

use crate::library::Library;
use crate::references::references_inside;
use base_core::Memory;
use base_graph::{Graph, OrderFault, masks, order};
use mdl_tree::Section;
use std::alloc::Global;

/// The edges of a graph.
type Edges = Vec<(u32, u32)>;

impl Library<'_> {
    /// Takes the needs of the source at a place, which has these references inside it.
    fn take_needs(
        &self,
        edges: &mut Edges,
        place: u32,
        references: &[&Section],
    ) -> Result<(), Memory>
        requires { length self.now.sources.entries < 2 ^ 32 }
        ensures { OnOk result (edges.new.items ≡ edges.old.items
            ++ plain.needs_by (library_seen self.now) place (trees_of references.now)) }
    {
        for reference in references {
            if let Some(named) = self.place_of(&self.given, reference) {
                edges.push((named as u32, place))?;
            }
        }
        Ok(())
    }

    /// Takes the needs of the source at a place.
    fn take_source(&self, alloc: Global, edges: &mut Edges, place: u32) -> Result<(), Memory>
        requires { length self.now.sources.entries < 2 ^ 32 }
        ensures { OnOk result (edges.new.items ≡ edges.old.items
            ++ plain.needs_at (library_seen self.now) place) }
    {
        match self.source_at(place as usize) {
            Some(source) => {
                let references = references_inside(alloc, source)?;
                self.take_needs(edges, place, &references)
            }
            None => Ok(()),
        }
    }

    /// The sources as a graph: each needs those that references inside it name.
    fn graph(&self, alloc: Global, n: u32) -> Result<Graph, Memory>
        requires { length self.now.sources.entries ≡ n }
        ensures { IfOk result (λ graph. graph ≡ plain.source_graph (library_seen self.now)) }
    {
        let mut edges = Vec::new(alloc);
        for place in 0..n {
            self.take_source(alloc, &mut edges, place)?;
        }
        Ok(Graph { n, edges })
    }

    /// The line of the source at this place.
    fn line_at(&self, place: usize) -> Option<u32>
        ensures { result ≡ option_map (λ source. source.1.line)
            (slice_get (library_seen self.now).sources place) }
    {
        Some(self.source_at(place)?.line)
    }

    /// The line of the first source that reaches itself.
    pub fn circular_line(&self, alloc: Global) -> Result<Option<u32>, Memory>
        ensures { IfOk result (λ line. line ≡ plain.circular_line (library_seen self.now)) }
    {
        let Ok(n) = u32::try_from(self.sources.len()) else {
            return Err(Memory);
        };
        let graph = self.graph(alloc, n)?;
        match order(alloc, &graph) {
            Ok(_) => Ok(None),
            Err(OrderFault::Cycle(_)) => self.first_circular(alloc, &graph),
            Err(OrderFault::Memory) => Err(Memory),
        }
    }

    /// The line of the first source that needs itself in the graph of the sources.
    fn first_circular(&self, alloc: Global, graph: &Graph) -> Result<Option<u32>, Memory>
        requires { graph.now ≡ plain.source_graph (library_seen self.now) }
        ensures { IfOk result (λ line. line ≡ plain.circular_line (library_seen self.now)) }
    {
        for place in 0..graph.n {
            if needs_itself(alloc, graph, place)? {
                return Ok(self.line_at(place as usize));
            }
        }
        Ok(None)
    }
}

/// Whether a node of a graph needs itself, along some edges.
fn needs_itself(alloc: Global, graph: &Graph, node: u32) -> Result<bool, Memory>
    requires { node < graph.now.n }
    ensures { IfOk result (λ found. found ≡ plain.needs_itself graph.now node) }
{
    let mut source = vec![in alloc; 0; graph.n as usize]?;
    source[node as usize] = 1;
    let reached = masks(alloc, graph, &source)?;
    Ok(needs_marked(graph, &reached, node))
}

/// Whether a node needs one of the nodes whose mask has bit 0.
fn needs_marked(graph: &Graph, masks: &[u64], node: u32) -> bool
    requires { length masks.now ≡ graph.now.n }
    ensures { result ≡ list_any (marks masks.now node) graph.now.edges }
{
    for edge in graph.edges.iter() {
        if edge.1 == node && masks[edge.0 as usize] & 1 != 0 {
            return true;
        }
    }
    false
}
