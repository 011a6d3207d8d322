ghost use Rattle.std.specs.Prelude.{◌≡◌, true, IfOk, IfErr, MatchOption, None, Some, is_some};
ghost use Rattle.std.specs.List.{AllZip};
ghost use Rattle.mdl_blocks.specs.Held.{body_text};
ghost use Rattle.base_refusals.specs.FirstRefusal.{as_plain};
ghost use Rattle.mdl_rows.specs.Models.{Block};
ghost use Rattle.mdl_rows.specs.Interiors.{control_of};
ghost use Rattle.mdl_rows.specs.RowTexts.{row_fault};
ghost use Rattle.mdl_rows.specs.Refusals.{first_in, row_refusal};
ghost use Rattle.mdl_rows.specs.Held.{IsBodyRow, IsRowText, seen};
ghost use Rattle.mdl_rows.specs.HeldModels.{IsModel, model_of};

use crate::blocks::NumberedBlock;
use crate::lists::push_if_there;
use crate::model::ModelBlocks;
use base_core::{Control, Memory};
use base_refusals::{Refusal, first_refusal};
use mdl_blocks::{Body, Fault, RowText};
use std::alloc::Global;

/// What the rows of a model say, and the first refusal for their times and types.
#[derive(Drop)]
pub(crate) struct RowTexts {
    pub refusal: Option<Refusal>,
    pub texts: Vec<RowText>,
}

/// What the row of a block says, with this control where it is a subsystem.
fn row_text(body: &Body, control: Control) -> Result<RowText, Fault>
    ensures text { IfOk result (IsBodyRow (body_text body.now) control) }
    ensures lawful { IfOk result (λ t. row_fault (body_text body.now) ≡ None) }
    ensures fault { IfErr result (λ f. row_fault (body_text body.now) ≡ Some f) }
{
    body.row(control)
}

/// What was found of the row of a block: its refusal, or else what it says.
#[derive(Drop)]
struct RowFound {
    refusal: Option<Refusal>,
    text: Option<RowText>,
}

/// The row of a block, with this control where it is a subsystem.
fn row_found(block: &NumberedBlock, control: Control) -> RowFound
    ensures refusal { as_plain result.refusal ≡ row_refusal (seen block.now) }
    ensures text { MatchOption result.text (is_some (row_refusal (seen block.now)) ≡ true)
        (IsRowText control (seen block.now)) }
{
    match row_text(&block.block.body, control) {
        Ok(text) => RowFound {
            refusal: None,
            text: Some(text),
        },
        Err(fault) => RowFound {
            refusal: Some(fault.refusal_at(block.block.line)),
            text: None,
        },
    }
}

/// What the rows of a model say.
pub(crate) fn row_texts(alloc: Global, model: &ModelBlocks) -> Result<RowTexts, Memory>
    requires { IsModel model.now }
    ensures refusal { IfOk result (λ r. as_plain r.refusal ≡ first_in row_refusal (model_of model.now).blocks) }
    ensures texts { IfOk result (λ r. as_plain r.refusal ≡ None →
        AllZip (λ (b : Block). IsRowText (control_of (model_of model.now).blocks b.number) b)
        (model_of model.now).blocks r.texts.items) }
{
    let mut refusal = None;
    let mut texts = Vec::with_capacity(alloc, model.blocks.len())?;
    for block in model.blocks.as_slice() {
        let found = row_found(block, model.control(block.number));
        refusal = first_refusal(refusal, found.refusal);
        push_if_there(&mut texts, found.text)?;
    }
    Ok(RowTexts { refusal, texts })
}
