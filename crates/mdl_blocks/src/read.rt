ghost use Rattle.std.specs.Prelude.{◌≡◌};
ghost use Rattle.mdl_tree.specs.Values.{section_tree};
ghost use Rattle.mdl_blocks.specs.Results.{Gives};
ghost use Rattle.mdl_blocks.specs.Blocks.{block_of, block_typed, unless_hollow};
ghost use Rattle.mdl_blocks.specs.Held.{block_text, system_tree};

use crate::block::Block;
use crate::fault::Fault;
use crate::peers::Peers;
use crate::texts::BlockTexts;
use base_core::ParamName;
use mdl_params::{BlockType, Defaults};
use mdl_tree::Section;

/// The type of a block with this System inside it: a subsystem without one isn't read.
fn unless_hollow(block_type: BlockType, system: Option<&Section>) -> Result<BlockType, Fault>
    ensures { result ≡ unless_hollow (system_tree system.entry) block_type }
{
    if block_type == BlockType::SubSystem && system.is_none() {
        Err(Fault::Unsupported)
    } else {
        Ok(block_type)
    }
}

/// Reads a block whose BlockType has this text.
fn read_typed<'a>(
    defaults: &'a Defaults,
    peers: Peers,
    section: &'a Section,
    type_name: &'a [u8],
) -> Result<Block<'a>, Fault>
    ensures { Gives block_text result
        (block_typed defaults.now peers (section_tree section.now) type_name.now) }
{
    let texts = BlockTexts {
        defaults,
        section,
        type_name,
    };
    let system = section.section(b"System");
    let known = BlockType::of(type_name).ok_or(Fault::Unsupported)?;
    let block_type = unless_hollow(known, system)?;
    let name = texts.text(ParamName::Name)?;
    let body = texts.body(block_type, peers, system)?;
    Ok(Block {
        name,
        line: section.line,
        body,
    })
}

/// Reads a block's section, by the defaults of its model and the numbers of Inports and Outports of its system.
///
/// Each parameter is looked up once: in the section, among the defaults of the model, and then among those of the language.
///
/// Fails with `Unsupported` exactly where the BlockType is none that is read, or a subsystem has no System, and else with
/// `Parameter` exactly where the block has no name or the text of some parameter is not of its form, with the first such
/// parameter. A period 0 and a floating-point type are read, as errors of the row: see `Body::row`.
pub fn read_block<'a>(
    defaults: &'a Defaults,
    peers: Peers,
    section: &'a Section,
) -> Result<Block<'a>, Fault>
    ensures { Gives block_text result (block_of defaults.now peers (section_tree section.now)) }
{
    let type_name = section.param(b"BlockType").ok_or(Fault::Unsupported)?;
    read_typed(defaults, peers, section, type_name.bytes())
}
