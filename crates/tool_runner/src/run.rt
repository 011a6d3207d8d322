// What a run holds besides the machine.
ghost use Rattle.std.specs.Prelude.{◌≡◌, length, IfOk};
ghost use Rattle.tool_runner.specs.Runs.{no_totals};

use crate::outcome::Totals;
use base_fixed_point::FixType;
use std::alloc::{AllocError, Global};

/// The types of a row's numbers, the numbers of a row and of its outputs, and what was executed.
#[derive(Drop)]
pub(crate) struct Run<'a> {
    pub(crate) types: &'a [FixType],
    pub(crate) row: Vec<i64>,
    pub(crate) outputs: Vec<i64>,
    pub(crate) totals: Totals,
}

impl<'a> Run<'a> {
    // A run that has not begun, of rows with numbers of these types and so many outputs.
    pub(crate) fn new(
        alloc: Global,
        types: &'a [FixType],
        outputs: usize,
    ) -> Result<Run<'a>, AllocError>
        ensures types { IfOk result (λ run. run.types.now ≡ types.now) }
        ensures row { IfOk result (λ run. length run.row.items ≡ length types.now) }
        ensures outputs { IfOk result (λ run. length run.outputs.items ≡ outputs) }
        ensures totals { IfOk result (λ run. run.totals ≡ no_totals) }
    {
        Ok(Run {
            types,
            row: vec![in alloc; 0i64; types.len()]?,
            outputs: vec![in alloc; 0i64; outputs]?,
            totals: Totals::none(),
        })
    }
}
