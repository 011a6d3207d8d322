ghost use Rattle.std.specs.Prelude.{◌≡◌, IfOk};
ghost use Rattle.mdl_tree.specs.Values.{section_tree};
ghost use Rattle.base_refusals.specs.FirstRefusal.{as_plain, least_in};
ghost use Rattle.mdl_systems.specs.Outlines.{outlines_of, systems_inside, systems_of};
ghost use Rattle.mdl_systems.specs.Refusals.{newer};
ghost use Rattle.mdl_systems.specs.Held.{seen, all_seen};

use crate::outline::Outline;
use crate::outlines::system_inside;
use base_refusals::{Refusal, earlier};
use mdl_tree::Section;
use mdl_wiring::newer_line;

/// The first line in the newer form of the system inside a block, if it is a subsystem.
fn newer_inside(block: &Outline) -> Option<Refusal>
    ensures { as_plain result ≡ least_in newer (systems_inside (seen block.now)) }
{
    newer_line(system_inside(block)?)
}

/// The first line in the newer form of a model with these blocks.
pub(crate) fn least_newer(system: &Section, blocks: &[Outline]) -> Option<Refusal>
    requires { all_seen blocks.now ≡ outlines_of (section_tree system.now) }
    ensures { as_plain result ≡ least_in newer (systems_of (section_tree system.now)) }
{
    let mut least = newer_line(system);
    for block in blocks {
        least = earlier(least, newer_inside(block));
    }
    least
}
