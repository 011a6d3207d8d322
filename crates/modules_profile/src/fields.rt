ghost use Rattle.std.specs.Prelude.{◌≡◌, length};

use crate::{Local, LocalRow, Nodes};
use base_core::Control;
use base_graph::Graph;

impl Local {
    /// How the system is controlled.
    pub(crate) fn control(&self) -> Control
        ensures { result ≡ self.now.control }
    {
        self.control
    }

    /// Its own rows, in the order of the file.
    pub(crate) fn rows(&self) -> &[LocalRow]
        ensures { result.now ≡ self.now.rows }
    {
        self.rows.as_slice()
    }
}

impl Nodes {
    /// How many nodes there are.
    pub(crate) fn count(&self) -> usize
        ensures { result ≡ length self.now.list }
    {
        self.list.as_slice().len()
    }

    /// What each of them needs.
    pub(crate) fn graph(&self) -> &Graph
        ensures { result.now ≡ self.now.graph }
    {
        &self.graph
    }

    /// The nodes of the outputs by port.
    pub(crate) fn outputs(&self) -> &[u32]
        ensures { result.now ≡ self.now.outputs }
    {
        self.outputs.as_slice()
    }
}
