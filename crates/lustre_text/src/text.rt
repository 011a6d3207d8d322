ghost use Rattle.std.specs.Prelude.{◌≡◌, None, IfOk, IfErr, OnOk};
ghost use Rattle.diagram_meaning.specs.Needs.{HasNoLoop, needs_of};
ghost use Rattle.diagram_meaning.specs.ResolvedTree.{diagram_of};
ghost use Rattle.lustre_right.specs.LongDelays.{long_delay};
ghost use Rattle.lustre_right.specs.Right.{IsRightText};
ghost use Rattle.lustre_emitter.specs.Faults.{IsFaultOf};
ghost use Rattle.lustre_text.specs.Counted.{HasNodeCount};

use diagram_meaning::Resolved;
use lustre_emitter::{LusOfFault, lustre_of};
use lustre_lines::lines_mean_nothing;
use lustre_lives::files_are_right;
use lustre_printer::print_lustre;
use lustre_reading_laws::readings_are_lawful;
use std::alloc::Global;

/// The text of Lustre of a model without a loop, and how many nodes it has. Its one reading is a file that is right for the
/// model: over each trace it is never stuck, gives the outputs of the one run, and has for each row the value that the run has.
///
/// # Errors
///
/// `LongDelay` exactly where a Delay has more than 64 samples, with the place of the first one; else `Memory`.
pub fn lustre_text(alloc: Global, r: &Resolved) -> Result<(Vec<u8>, usize), LusOfFault>
    requires { HasNoLoop (needs_of (diagram_of r.now)) }
    ensures right { IfOk result (λ t. IsRightText t.0.items (diagram_of r.now)) }
    ensures nodes { IfOk result (λ t. HasNodeCount t.0.items t.1) }
    ensures short { OnOk result (long_delay (diagram_of r.now) ≡ None) }
    ensures fault { IfErr result (IsFaultOf (diagram_of r.now)) }
{
    r.is_resolved();
    files_are_right();
    readings_are_lawful();
    lines_mean_nothing();
    let file = lustre_of(alloc, r)?;
    let count = file.nodes.len();
    let text = print_lustre(alloc, &file)?;
    Ok((text, count))
}
