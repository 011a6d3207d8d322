ghost use Rattle.std.specs.Prelude.{◌≡◌, IfOk, option_copied};
ghost use Rattle.mdl_tree.specs.Values.{section_tree, trees_of};
ghost use Rattle.mdl_params.specs.declared.BlockType.TheVariants.{SubSystem};
ghost use Rattle.mdl_params.specs.Defaults.{default_blocks};
ghost use Rattle.mdl_blocks.specs.Peers as peers;
ghost use Rattle.mdl_library.specs.Given as plain;
ghost use Rattle.mdl_library.specs.Held.{given_seen};

use base_core::{Memory, ParamName, Text};
use mdl_params::{BlockType, Defaults};
use mdl_tree::Section;
use std::alloc::Global;

/// What a Model or a Library gives for the blocks of its file: its defaults, and the SourceBlock of a Reference among them.
#[derive(Drop)]
pub(crate) struct Given<'a> {
    pub defaults: Defaults,
    pub source: Option<&'a Text>,
}

/// Whether a block is a reference.
pub(crate) fn is_reference(block: &Section) -> bool
    ensures { result ≡ plain.is_reference (section_tree block.now).items }
{
    match block.param(b"BlockType") {
        Some(kind) => b"Reference".as_slice() == kind.bytes(),
        None => false,
    }
}

/// Whether a block is a subsystem.
pub(crate) fn is_subsystem(block: &Section) -> bool
    ensures { result ≡ peers.writes_type SubSystem (section_tree block.now).items }
{
    match block.param(b"BlockType") {
        Some(kind) => BlockType::SubSystem.name().as_bytes() == kind.bytes(),
        None => false,
    }
}

/// The SourceBlock of the first Reference among these blocks.
fn source_among<'a>(blocks: &[&'a Section]) -> Option<&'a Text>
    ensures { option_copied result ≡ plain.default_source (trees_of blocks.now) }
{
    for block in blocks {
        if is_reference(block) {
            return block.param(b"SourceBlock");
        }
    }
    None
}

/// The SourceBlock of the first Reference among the defaults of a Model or a Library.
fn default_source<'a>(alloc: Global, file: &'a Section) -> Result<Option<&'a Text>, Memory>
    ensures { IfOk result (λ source. option_copied source
        ≡ plain.default_source (default_blocks (section_tree file.now).items)) }
{
    let Some(defaults) = file.section(b"BlockParameterDefaults") else {
        return Ok(None);
    };
    let blocks = defaults.sections_named(alloc, b"Block")?;
    Ok(source_among(&blocks))
}

impl<'a> Given<'a> {
    /// What the defaults of a Model or a Library give.
    pub fn of(alloc: Global, file: &'a Section) -> Result<Given<'a>, Memory>
        ensures { IfOk result (λ given. given_seen given ≡ plain.given_by (section_tree file.now).items) }
    {
        let defaults = Defaults::new(alloc, file)?;
        let source = default_source(alloc, file)?;
        Ok(Given { defaults, source })
    }

    /// The text that stands for a parameter of a block of this type.
    pub fn parameter<'b>(
        &'b self,
        block: &'b Section,
        kind: &[u8],
        name: ParamName,
    ) -> Option<&'b [u8]>
        ensures { option_copied result
            ≡ (given_seen self.now).parameter (section_tree block.now).items kind.now name }
    {
        self.defaults.found(block, kind, name)
    }

    /// The name of a block.
    pub fn name<'b>(&'b self, block: &'b Section) -> Option<&'b [u8]>
        ensures { option_copied result ≡ plain.name_given (given_seen self.now) (section_tree block.now).items }
    {
        match block.param(b"Name") {
            Some(name) => Some(name.bytes()),
            None => {
                let kind = block.param(b"BlockType")?;
                self.parameter(block, kind.bytes(), ParamName::Name)
            }
        }
    }

    /// The SourceBlock of a reference.
    pub fn source_of<'b>(&'b self, block: &'b Section) -> Option<&'b [u8]>
        ensures { option_copied result ≡ plain.source_given (given_seen self.now) (section_tree block.now).items }
    {
        match block.param(b"SourceBlock") {
            Some(source) => Some(source.bytes()),
            None => Some(self.source?.bytes()),
        }
    }
}
