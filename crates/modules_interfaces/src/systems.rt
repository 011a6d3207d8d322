ghost use Rattle.std.specs.Prelude.{All, IfOk, map};
ghost use Rattle.std.specs.List.{AllZip};
ghost use Rattle.diagram_meaning.specs.ResolvedTree.{diagram_of};
ghost use Rattle.diagram_blocks.specs.Kinds.{is_inport, is_outport};
ghost use Rattle.modules_profile.specs.Functions.{IsProfileOf};
ghost use Rattle.modules_profile.specs.Systems.{systems};
ghost use Rattle.modules_report.specs.Reports.{IsReport, IsReportOn};
ghost use Rattle.modules_interfaces.specs.PortCounts.{AreCounts};

use crate::counts::{inport_counts, outport_counts};
use crate::ports::rows_of;
use crate::system::report_on;
use base_core::Memory;
use diagram_meaning::Resolved;
use modules_profile::{Profile, profiles_of, tree_has_all_systems};
use modules_report::{SystemReport, reports_on_are_right};
use std::alloc::Global;

/// The reports on all systems of a resolved tree: that on the root, and then those on the subsystems by row.
///
/// Fails only when memory runs out.
pub(crate) fn reports_on_systems(alloc: Global, r: &Resolved) -> Result<Vec<SystemReport>, Memory>
    ensures each { IfOk result
        (λ reports. AllZip (IsReportOn (diagram_of r.now))
        (systems r.now.tree.table.rows) reports.items) }
    ensures right { IfOk result (λ reports. All IsReport reports.items) }
{
    r.is_resolved();
    tree_has_all_systems();
    reports_on_are_right();
    let profiles = profiles_of(alloc, r)?;
    let rows = rows_of(r);
    let inports = inport_counts(alloc, rows)?;
    let outports = outport_counts(alloc, rows)?;
    let reports = reports_with(alloc, r, &inports, &outports, &profiles)?;
    Ok(reports)
}

// The reports on the systems that have these profiles.
fn reports_with(
    alloc: Global,
    r: &Resolved,
    inports: &[u32],
    outports: &[u32],
    profiles: &[Profile],
) -> Result<Vec<SystemReport>, Memory>
    requires inports { AreCounts is_inport r.now.tree.table.rows inports.now }
    requires outports { AreCounts is_outport r.now.tree.table.rows outports.now }
    requires profiles { All (λ p. IsProfileOf (diagram_of r.now) p.row p) profiles.now }
    ensures { IfOk result
        (λ reports. AllZip (IsReportOn (diagram_of r.now))
        (map (λ p. p.row) profiles.now) reports.items) }
{
    let mut reports = Vec::new(alloc);
    for profile in profiles {
        reports.push(report_on(alloc, r, inports, outports, profile)?)?;
    }
    Ok(reports)
}
