ghost use Rattle.std.specs.Prelude.{◌≡◌, ◌+◌, ℕ, IfOk, OnOk, length, map};
ghost use Rattle.mdl_tree.specs.Values.{section_tree};
ghost use Rattle.mdl_params.specs.declared.BlockType.TheVariants.{SubSystem};
ghost use Rattle.mdl_blocks.specs.declared.peers.Peers.{Peers};
ghost use Rattle.mdl_blocks.specs.Peers.{writes_type};
ghost use Rattle.mdl_systems.specs.Held.{taken};
ghost use Rattle.mdl_systems.specs.Outlines.{outlines_in, outlines_inside, outlines_of};
ghost use Rattle.emit_notes.specs.Sections.{all_seen, section_of, with_blocks};

use base_core::Memory;
use mdl_params::BlockType;
use mdl_tree::{Item, Section};
use std::alloc::Global;

/// The section of a block where it is.
#[derive(Clone, Copy, Drop)]
pub(crate) struct PlacedSection<'a> {
    /// The number of the subsystem block around it, in the order of the file from 0; none in the root.
    pub owner: Option<usize>,
    /// Its section.
    pub section: &'a Section,
}

/// The sections of the blocks of a model with this System, in the order of the file.
pub(crate) fn sections_of<'a>(
    alloc: Global,
    system: &'a Section,
) -> Result<Vec<PlacedSection<'a>>, Memory>
    ensures { IfOk result (λ v. all_seen v.items
        ≡ map section_of (outlines_of (section_tree system.now))) }
{
    let mut sections = Vec::new(alloc);
    take_system(&mut sections, None, system)?;
    Ok(sections)
}

/// Whether a block's section is that of a subsystem.
fn is_subsystem(section: &Section) -> bool
    ensures { result ≡ writes_type SubSystem (section_tree section.now).items }
{
    match section.param(b"BlockType") {
        Some(text) => BlockType::SubSystem.name().as_bytes() == text.bytes(),
        None => false,
    }
}

/// Takes the sections of the blocks of a System, each before those inside it.
#[cycle(sections)]
fn take_system<'a>(
    sections: &mut Vec<PlacedSection<'a>>,
    owner: Option<usize>,
    system: &'a Section,
) -> Result<(), Memory>
    ensures { OnOk result ((depth : ℕ) (peers : Peers) → all_seen sections.new.items
        ≡ with_blocks sections.old.items
        (outlines_in (length sections.old.items) owner depth peers (section_tree system.now).items)) }
{
    for item in system.items.as_slice() {
        if let Item::Section(section) = item {
            if section.name.bytes() == b"Block".as_slice() {
                take_block(sections, owner, section)?;
            }
        }
    }
    Ok(())
}

/// Takes the section of one block, and those of the blocks inside it.
#[cycle(sections)]
fn take_block<'a>(
    sections: &mut Vec<PlacedSection<'a>>,
    owner: Option<usize>,
    section: &'a Section,
) -> Result<(), Memory>
    ensures { OnOk result ((depth : ℕ) (peers : Peers) → all_seen sections.new.items
        ≡ with_blocks sections.old.items
        (taken (length sections.old.items) owner depth peers (section_tree section.now))) }
{
    let number = sections.len();
    sections.push(PlacedSection { owner, section })?;
    if is_subsystem(section) {
        take_inside(sections, number, section)
    } else {
        Ok(())
    }
}

/// Takes the sections of the blocks inside a subsystem block, which is the last one that was taken.
#[cycle(sections)]
fn take_inside<'a>(
    sections: &mut Vec<PlacedSection<'a>>,
    number: usize,
    section: &'a Section,
) -> Result<(), Memory>
    requires last { length sections.old.items ≡ number + 1 }
    ensures { OnOk result ((depth : ℕ) → all_seen sections.new.items ≡ with_blocks sections.old.items
        (outlines_inside number depth (section_tree section.now).items)) }
{
    for item in section.items.as_slice() {
        if let Item::Section(system) = item {
            if system.name.bytes() == b"System".as_slice() {
                return take_system(sections, Some(number), system);
            }
        }
    }
    Ok(())
}
