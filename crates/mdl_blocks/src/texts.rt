ghost use Rattle.mdl_blocks.specs.Results.{Gives};
ghost use Rattle.mdl_blocks.specs.Held.{texts_of};

use crate::fault::Fault;
use base_core::ParamName;
use mdl_params::Defaults;
use mdl_tree::Section;

/// The texts of the parameters of a block: of its section, whose BlockType has this text, and of its model's defaults.
#[derive(Clone, Copy, Drop)]
pub(crate) struct BlockTexts<'a> {
    pub defaults: &'a Defaults,
    pub section: &'a Section,
    pub type_name: &'a [u8],
}

impl<'a> BlockTexts<'a> {
    /// The text that stands for a parameter.
    pub(crate) fn text(self, name: ParamName) -> Result<&'a [u8], Fault>
        ensures { Gives (λ text. text.now) result (texts_of self.entry name) }
    {
        self.defaults
            .found(self.section, self.type_name, name)
            .ok_or(Fault::Parameter(name))
    }
}
