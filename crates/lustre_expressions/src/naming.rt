// Where the names stand that an expression of C comes to.
ghost use Rattle.std.specs.Prelude.{◌≡◌, IfOk};
ghost use Rattle.lustre_system.specs.Functions.{function_name};
ghost use Rattle.lustre_expressions.specs.Placed as placed;

use base_core::Memory;
use c_syntax::Leaf;
use std::alloc::Global;

/// The places of leaves, of what calls of functions give, and of functions.
pub trait Naming {
    /// The places and the names.
    ghost naming: { Self → placed.Naming };

    /// The place of a leaf among the names of the node.
    fn leaf_place(&self, alloc: Global, leaf: Leaf) -> Result<u32, Memory>
        ensures { IfOk result (λ k. k
            ≡ (Self.naming self.now).place ((Self.naming self.now).leaf_name leaf)) };

    /// The place of what call `n` gives.
    fn part_place(&self, alloc: Global, n: u32) -> Result<u32, Memory>
        ensures { IfOk result (λ k. k
            ≡ (Self.naming self.now).place ((Self.naming self.now).part_name n)) };

    /// The place of a function among the nodes of the file.
    fn function_place(&self, function: u32) -> Result<u32, Memory>
        ensures { IfOk result (λ k. k ≡ (Self.naming self.now).callee (function_name function)) };
}
