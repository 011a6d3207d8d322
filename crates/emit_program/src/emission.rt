ghost use Rattle.std.specs.Prelude.{◌≡◌, IfOk};
ghost use Rattle.diagram_meaning.specs.Needs.{needs_of, HasNoLoop};
ghost use Rattle.diagram_meaning.specs.ResolvedTree.{diagram_of};
ghost use Rattle.emit_program.specs.Emission.{IsEmittedFrom};

use crate::counts::function_count;
use crate::emitted::Emitted;
use crate::laws::assembled_is_code;
use base_core::Memory;
use diagram_meaning::Resolved;
use emit_linker::assemble;
use emit_systems::codes_of;
use modules_profile::tree_has_all_systems;
use std::alloc::Global;

/// The ticks after which all hits of a model repeat.
fn cycle(r: &Resolved) -> u32
    ensures { result ≡ r.now.times.hyper }
{
    r.times.hyper
}

/// The program of a model without a loop, in time linear in its rows and the headers of its systems.
///
/// Fails only when memory runs out.
pub fn emit(alloc: Global, r: &Resolved) -> Result<Emitted, Memory>
    requires { HasNoLoop (needs_of (diagram_of r.now)) }
    ensures { IfOk result (λ e. IsEmittedFrom r.now e) }
{
    assembled_is_code();
    r.is_resolved();
    tree_has_all_systems();
    let made = codes_of(alloc, r)?;
    let program = assemble(alloc, &made.codes, &made.root, cycle(r))?;
    let profiles = made.profiles.as_slice();
    Ok(Emitted {
        program,
        systems: profiles.len() as u32,
        functions: function_count(profiles),
    })
}
