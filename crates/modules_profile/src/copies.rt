ghost use Rattle.std.specs.Prelude.{◌≡◌, IfOk};

use crate::{Header, Profile};
use base_core::Memory;
use std::alloc::Global;

/// A header of its own with the same content.
pub(crate) fn copy_header(alloc: Global, header: &Header) -> Result<Header, Memory>
    ensures { IfOk result (λ copy. copy ≡ header.now) }
{
    Ok(Header {
        row: header.row,
        control: header.control,
        inputs: Vec::from_slice(alloc, &header.inputs)?,
        controls: Vec::from_slice(alloc, &header.controls)?,
        outputs: Vec::from_slice(alloc, &header.outputs)?,
        profile: header.profile.copied(alloc)?,
    })
}

impl Profile {
    /// A profile of its own with the same content.
    ///
    /// Fails only when memory runs out.
    pub fn copied(&self, alloc: Global) -> Result<Profile, Memory>
        ensures { IfOk result (λ copy. copy ≡ self.now) }
    {
        Ok(Profile {
            row: self.row,
            functions: Vec::from_slice(alloc, &self.functions)?,
        })
    }
}
