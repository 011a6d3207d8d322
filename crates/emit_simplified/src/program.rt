ghost use Rattle.std.specs.Prelude.{◌≡◌, IfOk};
ghost use Rattle.c_syntax.specs.Lawful.{IsLawful};
ghost use Rattle.c_syntax.specs.Plain.{program_tree};
ghost use Rattle.emit_simplified.specs.Simplified as simplified_trees;

use base_core::Memory;
use c_syntax::Program;
use emit_fused::fused;
use emit_inlined::inlined;
use emit_pruned::pruned;
use std::alloc::Global;

/// A program as it is printed: it does the same in no more steps, with less code.
///
/// Fails only when memory runs out, or where a position would pass 32 bits.
pub fn simplified(alloc: Global, program: Program) -> Result<Program, Memory>
    requires { IsLawful (program_tree program) }
    ensures { IfOk result
        (λ p. program_tree p ≡ simplified_trees.simplified (program_tree program)) }
{
    let without_helpers = inlined(alloc, program)?;
    let with_fewer_tests = fused(alloc, without_helpers)?;
    pruned(alloc, with_fewer_tests)
}
