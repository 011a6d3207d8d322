ghost use Rattle.std.specs.Prelude.{◌≡◌, ◌<◌, ◌+◌, ◌-◌, ◌^◌, cond};
ghost use Rattle.base_core.specs.Numbers.{reported_number};
ghost use Rattle.mdl_tree.specs.Spelling.{End};
ghost use Rattle.mdl_tree.specs.Values.{section_tree, with_item};
ghost use Rattle.mdl_params.specs.declared.BlockType.TheVariants.{Inport, Outport};
ghost use Rattle.mdl_blocks.specs.Peers.{is_block_of, peers_in, writes_type};

use mdl_params::BlockType;
use mdl_tree::{Item, Section};

/// How many Inports and Outports a system has.
#[derive(Clone, Copy, Debug, PartialEq, Eq, Drop)]
pub struct Peers {
    /// How many Inports.
    pub inports: u32,
    /// How many Outports.
    pub outports: u32,
}

impl Peers {
    /// Those of a System. A count that doesn't fit 32 bits is reported as the greatest number that does.
    pub fn of(system: &Section) -> Peers
        ensures { result ≡ peers_in (section_tree system.now).items }
    {
        let mut inports = 0;
        let mut outports = 0;
        for item in system.items.as_slice() {
            let port = PortType::of_item(item);
            inports = counted(inports, port.is_inport);
            outports = counted(outports, port.is_outport);
        }
        Peers {
            inports: reported(inports),
            outports: reported(outports),
        }
    }
}

/// A count as it is reported.
fn reported(count: usize) -> u32
    ensures { result ≡ reported_number count }
{
    count.min(u32::MAX as usize) as u32
}

/// A count with one more, where this is counted.
fn counted(count: usize, is_counted: bool) -> usize
    requires { count < 2 ^ 64 - 1 }
    ensures { result ≡ cond is_counted (count + 1) count }
{
    if is_counted { count + 1 } else { count }
}

/// Which of the two types of port a block has, if it has one of them.
#[derive(Clone, Copy, Drop)]
struct PortType {
    is_inport: bool,
    is_outport: bool,
}

impl PortType {
    /// That of an item, if it is a block.
    fn of_item(item: &Item) -> PortType
        ensures inport { result.is_inport ≡ is_block_of Inport (with_item item.now End) }
        ensures outport { result.is_outport ≡ is_block_of Outport (with_item item.now End) }
    {
        if let Item::Section(section) = item {
            if section.name.bytes() == b"Block".as_slice() {
                return PortType::of_block(section);
            }
        }
        PortType {
            is_inport: false,
            is_outport: false,
        }
    }

    /// That of a block's section, whose BlockType is looked up once.
    fn of_block(section: &Section) -> PortType
        ensures inport { result.is_inport ≡ writes_type Inport (section_tree section.now).items }
        ensures outport { result.is_outport ≡ writes_type Outport (section_tree section.now).items }
    {
        match section.param(b"BlockType") {
            Some(text) => PortType {
                is_inport: BlockType::Inport.name().as_bytes() == text.bytes(),
                is_outport: BlockType::Outport.name().as_bytes() == text.bytes(),
            },
            None => PortType {
                is_inport: false,
                is_outport: false,
            },
        }
    }
}
