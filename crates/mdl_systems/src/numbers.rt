ghost use Rattle.std.specs.Prelude.{◌≡◌};
ghost use Rattle.mdl_tree.specs.Values.{section_tree};
ghost use Rattle.mdl_blocks.specs.Peers.{peers_in};
ghost use Rattle.base_refusals.specs.FirstRefusal.{as_plain, least_in};
ghost use Rattle.mdl_systems.specs.Outlines.{outlines_of, systems_inside, systems_of};
ghost use Rattle.mdl_systems.specs.Refusals as refused;
ghost use Rattle.mdl_systems.specs.Held.{seen, all_seen};

use crate::outline::Outline;
use crate::outlines::{is_subsystem, system_inside};
use base_refusals::{Many, Refusal, earlier};
use mdl_blocks::Peers;
use mdl_tree::Section;

/// How many subsystems may be around a subsystem.
const MOST_AROUND: usize = 31;

/// The most blocks that a model has.
const MOST_BLOCKS: usize = 20_000;

/// The most Inports or Outports that a system has.
const MOST_PORTS: u32 = 32;

/// The refusal of a subsystem that is inside 32 others.
fn deep(block: &Outline) -> Option<Refusal>
    ensures { as_plain result ≡ refused.deep (seen block.now) }
{
    if block.depth > MOST_AROUND && is_subsystem(block.section) {
        Some(Refusal::TooDeep {
            line: block.section.line,
        })
    } else {
        None
    }
}

/// The first subsystem that is inside 32 others.
fn least_deep(blocks: &[Outline]) -> Option<Refusal>
    ensures { as_plain result ≡ least_in refused.deep (all_seen blocks.now) }
{
    let mut least = None;
    for block in blocks {
        least = earlier(least, deep(block));
    }
    least
}

/// The refusal of a model with more than 20,000 blocks.
fn too_many_blocks(blocks: &[Outline]) -> Option<Refusal>
    ensures { as_plain result ≡ refused.too_many_blocks (all_seen blocks.now) }
{
    let block = blocks.get(MOST_BLOCKS)?;
    Some(Refusal::TooMany {
        line: block.section.line,
        what: Many::Blocks,
        count: blocks.len().min(u32::MAX as usize) as u32,
    })
}

/// The refusal of so many ports of one kind in a system at this line.
fn crowd_at(line: u32, what: Many, count: u32) -> Option<Refusal>
    ensures { as_plain result ≡ refused.crowd_at line what count }
{
    if count > MOST_PORTS {
        Some(Refusal::TooMany { line, what, count })
    } else {
        None
    }
}

/// The refusal of a system at this line with too many Inports or Outports.
fn crowd_of(line: u32, peers: Peers) -> Option<Refusal>
    ensures { as_plain result ≡ refused.crowd_of line peers }
{
    earlier(
        crowd_at(line, Many::Inports, peers.inports),
        crowd_at(line, Many::Outports, peers.outports),
    )
}

/// The refusal of the system inside a block, if it is a subsystem, with too many Inports or Outports.
fn crowd_inside(block: &Outline) -> Option<Refusal>
    ensures { as_plain result ≡ least_in refused.crowd (systems_inside (seen block.now)) }
{
    crowd_of(block.section.line, Peers::of(system_inside(block)?))
}

/// How many Inports and Outports the root of a model with these blocks has, which its first block knows.
fn root_peers(system: &Section, blocks: &[Outline]) -> Peers
    requires { all_seen blocks.now ≡ outlines_of (section_tree system.now) }
    ensures { result ≡ peers_in (section_tree system.now).items }
{
    match blocks.first() {
        Some(block) => block.peers,
        None => Peers::of(system),
    }
}

/// The first system of a model with these blocks that has too many Inports or Outports.
fn least_crowd(system: &Section, blocks: &[Outline]) -> Option<Refusal>
    requires { all_seen blocks.now ≡ outlines_of (section_tree system.now) }
    ensures { as_plain result ≡ least_in refused.crowd (systems_of (section_tree system.now)) }
{
    let mut least = crowd_of(system.line, root_peers(system, blocks));
    for block in blocks {
        least = earlier(least, crowd_inside(block));
    }
    least
}

/// The first refusal of a model with these blocks for how many there are, and where.
pub(crate) fn numbers_refusal(system: &Section, blocks: &[Outline]) -> Option<Refusal>
    requires { all_seen blocks.now ≡ outlines_of (section_tree system.now) }
    ensures { as_plain result ≡ refused.numbers_refusal (section_tree system.now) }
{
    if let Some(refusal) = least_deep(blocks) {
        return Some(refusal);
    }
    if let Some(refusal) = too_many_blocks(blocks) {
        return Some(refusal);
    }
    least_crowd(system, blocks)
}
