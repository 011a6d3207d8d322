ghost use Rattle.std.specs.Prelude.{◌≡◌, IfOk};
ghost use Rattle.lustre_syntax.specs.Lawful.{IsLawful};
ghost use Rattle.lustre_syntax.specs.Plain.{file_tree};
ghost use Rattle.lustre_slots.specs.Layout.{instances_of};
ghost use Rattle.lustre_slots.specs.Sources.{sources_of};

use crate::extents::extents_of;
use crate::instances::instances_of;
use crate::placed::{Placed, Source};
use crate::plan::Plan;
use crate::sources::sources_of;
use base_core::Memory;
use lustre_syntax::LusFile;
use std::alloc::Global;

/// The slots of a file. Those of an instance are before those of its calls.
#[derive(Drop)]
pub struct Slots {
    /// The instances, in the order of their paths.
    pub instances: Vec<Placed>,
    /// What gives each slot its value.
    pub sources: Vec<Source>,
}

/// The slots of a lawful file.
///
/// # Errors
///
/// Where memory runs out, or where a node has more than 2^32 slots or instances.
pub fn slots_of(alloc: Global, file: &LusFile) -> Result<Slots, Memory>
    requires { IsLawful (file_tree file.now) }
    ensures instances { IfOk result (λ s. s.instances.items ≡ instances_of (file_tree file.now)) }
    ensures sources { IfOk result (λ s. s.sources.items ≡ sources_of (file_tree file.now)) }
{
    let extents = extents_of(alloc, &file.nodes)?;
    let plan = Plan {
        file,
        extents: &extents,
    };
    let instances = instances_of(alloc, &plan)?;
    let sources = sources_of(alloc, &plan, &instances)?;
    Ok(Slots { instances, sources })
}
