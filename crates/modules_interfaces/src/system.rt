ghost use Rattle.std.specs.Prelude.{◌≡◌, IfOk};
ghost use Rattle.diagram_meaning.specs.ResolvedTree.{diagram_of};
ghost use Rattle.diagram_blocks.specs.Kinds.{is_inport, is_outport};
ghost use Rattle.modules_profile.specs.Functions.{IsProfileOf};
ghost use Rattle.modules_report.specs.Reports.{IsReportOn};
ghost use Rattle.modules_interfaces.specs.PortCounts.{AreCounts};

use crate::needs::needs_of;
use crate::ports::{controls_of, inputs_of, outputs_of};
use base_core::Memory;
use diagram_meaning::Resolved;
use modules_certificate::make;
use modules_profile::{Function, Profile};
use modules_report::SystemReport;
use std::alloc::Global;

/// The report on the system of a resolved tree that has this profile, by the counts of the Inports and Outports of all
/// systems.
///
/// Fails only when memory runs out.
pub(crate) fn report_on(
    alloc: Global,
    r: &Resolved,
    inports: &[u32],
    outports: &[u32],
    profile: &Profile,
) -> Result<SystemReport, Memory>
    requires inports { AreCounts is_inport r.now.tree.table.rows inports.now }
    requires outports { AreCounts is_outport r.now.tree.table.rows outports.now }
    requires profile { IsProfileOf (diagram_of r.now) profile.now.row profile.now }
    ensures { IfOk result (IsReportOn (diagram_of r.now) profile.now.row) }
{
    let row = row_of(profile);
    let outputs = outputs_of(r, outports, row);
    let needs = needs_of(alloc, outputs, functions_of(profile))?;
    let certificate = make(alloc, &needs)?;
    Ok(SystemReport {
        row,
        inputs: inputs_of(r, inports, row),
        controls: controls_of(alloc, r, row)?,
        outputs,
        profile: profile.copied(alloc)?,
        certificate,
    })
}

fn row_of(profile: &Profile) -> Option<u32>
    ensures { result ≡ profile.now.row }
{
    profile.row
}

fn functions_of(profile: &Profile) -> &[Function]
    ensures { result.now ≡ profile.now.functions }
{
    profile.functions.as_slice()
}
