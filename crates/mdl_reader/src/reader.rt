ghost use Rattle.std.specs.Prelude.{IfOk, IfErr};
ghost use Rattle.mdl_tree.specs.Values.{section_tree};
ghost use Rattle.mdl_reader.specs.Reading.{IsFileOf, IsFaultOf};

use crate::builder::Builder;
use crate::fault::ReadFault;
use base_core::trim;
use bstr::ByteSlice;
use mdl_tree::Section;
use std::alloc::Global;

/// Reads a text model file (MDL, as the Simulink reference describes it) to the tree of its sections,
/// which are in a section of no name at line 0. Lines are numbered from 1.
///
/// It takes time linear in the text, and no recursion. `Syntax` comes exactly where the text spells no
/// tree, with the first error of the text.
pub fn read_mdl(alloc: Global, bytes: &[u8]) -> Result<Section, ReadFault>
    ensures tree { IfOk result (λ section. IsFileOf bytes.now (section_tree section)) }
    ensures fault { IfErr result (IsFaultOf bytes.now) }
{
    let mut builder = Builder::new(alloc);
    let mut line: u32 = 0;
    for text in bytes.lines() {
        line = line.saturating_add(1);
        builder.take_line(alloc, line, trim(text))?;
    }
    builder.finish(alloc, line)
}
