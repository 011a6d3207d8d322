ghost use Rattle.std.specs.Prelude.{◌≡◌, ◌≤◌, ◌++◌, ◌+◌, OnOk, IfOk, length, map, option_map, option_to_list};
ghost use Rattle.mdl_tree.specs.Values.{section_tree};
ghost use Rattle.mdl_params.specs.declared.BlockType.TheVariants.{SubSystem};
ghost use Rattle.mdl_blocks.specs.Peers as peers;
ghost use Rattle.mdl_systems.specs.Outlines as written;
ghost use Rattle.mdl_systems.specs.Held.{seen, all_seen, taken, tree_at};
ghost use Rattle.mdl_systems.specs.Systems.{system_of, system_held, system_inside, tree_of_model, tree_of_system};

use crate::outline::{ModelOutlines, Outline};
use crate::system::SystemText;
use base_core::Memory;
use mdl_blocks::Peers;
use mdl_params::BlockType;
use mdl_tree::{Item, Section};
use std::alloc::Global;

/// Whether a block's section is that of a subsystem.
pub(crate) fn is_subsystem(section: &Section) -> bool
    ensures { result ≡ peers.writes_type SubSystem (section_tree section.now).items }
{
    match section.param(b"BlockType") {
        Some(text) => BlockType::SubSystem.name().as_bytes() == text.bytes(),
        None => false,
    }
}

/// The System inside a block, if it is a subsystem and has one.
#[tactic(auto, using(crate::proofs::HollowLemmas::none_inside))]
pub(crate) fn system_inside<'a>(block: &Outline<'a>) -> Option<&'a Section>
    ensures { map (written.inner_system (seen block.now)) (option_to_list (tree_at result))
        ≡ written.systems_inside (seen block.now) }
{
    let system = block.section.section(b"System")?;
    if is_subsystem(block.section) {
        Some(system)
    } else {
        None
    }
}

/// The blocks of a model with this System, in the order of the file, and its systems.
pub(crate) fn outlines_of<'a>(
    alloc: Global,
    system: &'a Section,
) -> Result<ModelOutlines<'a>, Memory>
    ensures blocks { IfOk result (λ m. all_seen m.blocks.items
        ≡ written.outlines_of (section_tree system.now)) }
    ensures root { IfOk result (λ m. system_of m.root ≡ tree_of_model (section_tree system.now)) }
{
    let mut blocks = Vec::new(alloc);
    let root = take_system(alloc, &mut blocks, None, system.line, 0, system)?;
    Ok(ModelOutlines { blocks, root })
}

/// Adds an item to a list, if there is one.
fn push_if_there<T: Drop>(list: &mut Vec<T>, item: Option<T>) -> Result<(), Memory>
    ensures { OnOk result (list.new.items ≡ list.old.items ++ option_to_list item) }
{
    if let Some(item) = item {
        list.push(item)?;
    }
    Ok(())
}

/// Takes the blocks of a System after those taken before, each before the blocks inside it, and gives their system.
#[cycle(blocks)]
fn take_system<'a>(
    alloc: Global,
    blocks: &mut Vec<Outline<'a>>,
    row: Option<usize>,
    line: u32,
    depth: usize,
    system: &'a Section,
) -> Result<SystemText<'a>, Memory>
    requires { depth ≤ length blocks.old.items }
    ensures blocks { OnOk result (all_seen blocks.new.items ≡ all_seen blocks.old.items
        ++ written.outlines_in (length blocks.old.items) row depth
        (peers.peers_in (section_tree system.now).items) (section_tree system.now).items) }
    ensures system { IfOk result (λ s. system_of s ≡ tree_of_system row line depth (length blocks.old.items)
        (section_tree system.now)) }
{
    let peers = Peers::of(system);
    let mut own = Vec::new(alloc);
    let mut children = Vec::new(alloc);
    for item in system.items.as_slice() {
        if let Item::Section(section) = item {
            if section.name.bytes() == b"Block".as_slice() {
                own.push(blocks.len())?;
                let child = take_block(alloc, blocks, row, depth, peers, section)?;
                push_if_there(&mut children, child)?;
            }
        }
    }
    Ok(SystemText {
        row,
        line,
        section: system,
        own,
        children,
    })
}

/// Takes one block, and those inside it; gives the system inside it, if it is a subsystem and has one.
#[cycle(blocks)]
fn take_block<'a>(
    alloc: Global,
    blocks: &mut Vec<Outline<'a>>,
    owner: Option<usize>,
    depth: usize,
    peers: Peers,
    section: &'a Section,
) -> Result<Option<SystemText<'a>>, Memory>
    requires { depth ≤ length blocks.old.items }
    ensures blocks { OnOk result (all_seen blocks.new.items ≡ all_seen blocks.old.items
        ++ taken (length blocks.old.items) owner depth peers (section_tree section.now)) }
    ensures system { IfOk result (λ s. option_map system_of s
        ≡ system_held (length blocks.old.items) depth (section_tree section.now)) }
{
    let number = blocks.len();
    blocks.push(Outline {
        number,
        owner,
        depth,
        peers,
        section,
    })?;
    if is_subsystem(section) {
        take_inside(alloc, blocks, number, depth + 1, section)
    } else {
        Ok(None)
    }
}

/// Takes the blocks inside a subsystem block, which is the last one that was taken; gives the system inside it, if it has one.
#[cycle(blocks)]
fn take_inside<'a>(
    alloc: Global,
    blocks: &mut Vec<Outline<'a>>,
    number: usize,
    depth: usize,
    section: &'a Section,
) -> Result<Option<SystemText<'a>>, Memory>
    requires last { length blocks.old.items ≡ number + 1 }
    requires depth { depth ≤ length blocks.old.items }
    ensures blocks { OnOk result (all_seen blocks.new.items ≡ all_seen blocks.old.items
        ++ written.outlines_inside number depth (section_tree section.now).items) }
    ensures system { IfOk result (λ s. option_map system_of s
        ≡ system_inside number (section_tree section.now).line depth
        (section_tree section.now).items) }
{
    for item in section.items.as_slice() {
        if let Item::Section(system) = item {
            if system.name.bytes() == b"System".as_slice() {
                let inside = take_system(alloc, blocks, Some(number), section.line, depth, system)?;
                return Ok(Some(inside));
            }
        }
    }
    Ok(None)
}
