ghost use Rattle.std.specs.Prelude.{◌≡◌, ◌<◌, ◌^◌, IfOk, IfErr, OnOk, None, length};
ghost use Rattle.mdl_tree.specs.Values.{section_tree};
ghost use Rattle.mdl_systems.specs.Reading.{IsFaultBy};
ghost use Rattle.mdl_rows.specs.Refusals.{rows_refusal};
ghost use Rattle.mdl_rows.specs.Tables.{AreRowsOf};
ghost use Rattle.mdl_rows.specs.Held.{AreBlocks, model_seen, numbered_from};

use crate::reading::model_of;
use crate::row_texts::{RowTexts, row_texts};
use crate::rows::rows_with;
use crate::wirings::{SystemsWired, systems_wired};
use base_refusals::first_refusal;
use diagram_meaning::{BuildFault, Row};
use mdl_systems::PlacedBlock;
use mdl_tree::Section;
use std::alloc::Global;

/// The rows of a model with this System and these blocks, which are in the order of the file.
///
/// Fails exactly with the first refusal of its systems for their names, ports and lines, or else of its blocks for their times
/// and types: `Continuous` for a period 0, `FloatType` for a floating-point type. Of several that of the least number is
/// reported, and of these that at the least line.
pub fn rows_of(
    alloc: Global,
    system: &Section,
    blocks: &[PlacedBlock],
) -> Result<Vec<Row>, BuildFault>
    requires blocks { AreBlocks (numbered_from 0 blocks.now) }
    requires at_most { length blocks.now < 2 ^ 32 }
    ensures accepted { OnOk result (rows_refusal (model_seen (section_tree system.now) blocks.now)
        ≡ None) }
    ensures rows { IfOk result (λ v. AreRowsOf (model_seen (section_tree system.now) blocks.now) v.items) }
    ensures fault { IfErr result
        (IsFaultBy (rows_refusal (model_seen (section_tree system.now) blocks.now))) }
{
    let model = model_of(alloc, system, blocks)?;
    let SystemsWired { refusal, wirings } = systems_wired(alloc, &model)?;
    let RowTexts {
        refusal: for_rows,
        texts,
    } = row_texts(alloc, &model)?;
    match first_refusal(refusal, for_rows) {
        Some(refusal) => Err(BuildFault::Refused(refusal)),
        None => Ok(rows_with(alloc, &model, &wirings, texts.as_slice())?),
    }
}
