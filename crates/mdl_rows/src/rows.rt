ghost use Rattle.std.specs.Prelude.{◌≡◌, IfOk, None};
ghost use Rattle.std.specs.List.{AllZip};
ghost use Rattle.mdl_rows.specs.Models.{Block};
ghost use Rattle.mdl_rows.specs.Interiors.{control_of};
ghost use Rattle.mdl_rows.specs.Refusals.{systems_refusal};
ghost use Rattle.mdl_rows.specs.Tables.{AreRowsOf, IsRowOf};
ghost use Rattle.mdl_rows.specs.Held.{AreWiringsOf, IsAmong, IsRowText, seen};
ghost use Rattle.mdl_rows.specs.HeldModels.{IsModel, model_of};

use crate::blocks::NumberedBlock;
use crate::model::ModelBlocks;
use crate::wires::row_wires;
use crate::wirings::Wirings;
use base_core::{Memory, Place};
use diagram_meaning::Row;
use mdl_blocks::RowText;
use std::alloc::Global;

/// The row of a block that says this.
fn row_of(
    alloc: Global,
    model: &ModelBlocks,
    wirings: &Wirings,
    block: &NumberedBlock,
    text: RowText,
) -> Result<Row, Memory>
    requires model { IsModel model.now }
    requires among { IsAmong (model_of model.now).blocks (seen block.now) }
    requires wirings { AreWiringsOf (model_of model.now) wirings.now }
    requires accepted { systems_refusal (model_of model.now) ≡ None }
    requires text { IsRowText (control_of (model_of model.now).blocks block.now.number)
        (seen block.now) text }
    ensures { IfOk result (IsRowOf (model_of model.now) (seen block.now)) }
{
    Ok(Row {
        place: Place {
            row: block.number,
            line: block.block.line,
        },
        owner: block.owner,
        kind: text.kind,
        inputs: row_wires(alloc, model, wirings, block)?,
        type_text: text.type_text,
        time_text: text.time_text,
    })
}

/// The rows of a model that say this.
pub(crate) fn rows_with(
    alloc: Global,
    model: &ModelBlocks,
    wirings: &Wirings,
    texts: &[RowText],
) -> Result<Vec<Row>, Memory>
    requires model { IsModel model.now }
    requires wirings { AreWiringsOf (model_of model.now) wirings.now }
    requires accepted { systems_refusal (model_of model.now) ≡ None }
    requires texts { AllZip (λ (b : Block). IsRowText (control_of (model_of model.now).blocks b.number) b)
        (model_of model.now).blocks texts.now }
    ensures { IfOk result (λ v. AreRowsOf (model_of model.now) v.items) }
{
    let mut rows = Vec::with_capacity(alloc, model.blocks.len())?;
    for (at, block) in model.blocks.as_slice().iter().enumerate() {
        rows.push(row_of(alloc, model, wirings, block, texts[at])?)?;
    }
    Ok(rows)
}
