ghost use Rattle.std.specs.Prelude.{IfErr, IfOk};
ghost use Rattle.diagram_meaning.specs.ResolvedTree.{diagram_of};
ghost use Rattle.modules_interfaces.specs.Interfaces.{IsReportOf};
ghost use Rattle.modules_report.specs.Reports.{IsReportText};
ghost use Rattle.diagram_verdict.specs.Faults.{IsFaultOf};

use crate::systems::reports_on_systems;
use base_core::Memory;
use diagram_meaning::Resolved;
use diagram_verdict::{ModelFault, accept_model};
use modules_report::print_report;
use std::alloc::Global;

/// The report on a model's text (MDL, as the Simulink reference describes it): the output functions of each system, the
/// inputs that each of them takes, and a certificate that no interface of the system has fewer.
///
/// `Refused` comes exactly where the file is refused, with its first refusal.
pub fn report_of(alloc: Global, bytes: &[u8]) -> Result<Vec<u8>, ModelFault>
    ensures report { IfOk result (λ text. IsReportOf bytes.now text.items) }
    ensures refused { IfErr result (IsFaultOf bytes.now) }
{
    let resolved = accept_model(alloc, bytes)?;
    Ok(text_of(alloc, &resolved)?)
}

/// The text of the reports on all systems of a resolved tree.
///
/// Fails only when memory runs out.
fn text_of(alloc: Global, r: &Resolved) -> Result<Vec<u8>, Memory>
    ensures { IfOk result (λ text. IsReportText (diagram_of r.now) text.items) }
{
    let reports = reports_on_systems(alloc, r)?;
    let text = print_report(alloc, &reports)?;
    Ok(text)
}
