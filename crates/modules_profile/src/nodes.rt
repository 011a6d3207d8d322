use base_graph::Graph;
use std::marker::Model;

/// What a system's values are made by: a row of its own, or a call of a function of a child, by the child's row and
/// from 1 on.
#[derive(Clone, Copy, Debug, PartialEq, Eq, Drop)]
pub enum Node {
    /// A row of its own, by its number.
    Row(u32),
    /// A call of a child's function.
    Call {
        /// The subsystem row of the child.
        child: u32,
        /// The number of the function, from 1.
        function: u32,
    },
}

/// The nodes of a system with what each needs, and the nodes of its outputs by port.
#[derive(Drop)]
pub struct Nodes {
    /// An edge leads from each node to those that need it.
    pub graph: Graph,
    /// What each node of the graph is: own rows first, then the calls of each child.
    pub list: Vec<Node>,
    /// The nodes of the Outports by port.
    pub outputs: Vec<u32>,
}

impl Model for Nodes {
    ghost use Rattle.modules_profile.specs.SystemNodes.{SystemNodes};

    ghost Value = { SystemNodes };

    ghost view = { λ s. record { graph = s.graph; list = s.list.items; outputs = s.outputs.items } };
}
