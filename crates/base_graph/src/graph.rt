use std::marker::Model;

/// The nodes below `n`, and pairs (a, b) of them of which b needs a.
#[derive(Drop)]
pub struct Graph {
    /// How many nodes there are.
    pub n: u32,
    /// A pair for each need: the second node needs the first.
    pub edges: Vec<(u32, u32)>,
}

impl Model for Graph {
    ghost use Rattle.base_graph.specs.NeedsGraph.{NeedsGraph, IsGraph};

    ghost Value = { NeedsGraph };

    ghost view = { λ g. record { n = g.n; edges = g.edges.items } };

    ghost invariant = { λ g. IsGraph (record { n = g.n; edges = g.edges.items }) };
}
