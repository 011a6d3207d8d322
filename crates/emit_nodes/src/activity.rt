ghost use Rattle.std.specs.Prelude.{◌≡◌, IfOk};
ghost use Rattle.std.specs.Option.{option_map};
ghost use Rattle.c_syntax.specs.Plain.{cond_tree};
ghost use Rattle.emit_row_code.specs.TestCode as test;
ghost use Rattle.emit_system_spec.specs.NodeCode as node;

use base_core::Memory;
use c_syntax::Cond;
use emit_layout::{Layout, Params};
use emit_row_code::{active_by, both_tests, disabled_by, hit_test, off_by};
use modules_profile::LocalRow;
use std::alloc::Global;

/// The test that a system is active; `None` always holds.
///
/// Fails only when memory runs out.
pub(crate) fn active_test(
    alloc: Global,
    layout: &Layout<'_>,
    params: &Params,
) -> Result<Option<Cond>, Memory>
    ensures { IfOk result
        (λ active. option_map cond_tree active ≡ node.active_test layout.now.local params.now) }
{
    active_by(alloc, layout.local().control, layout.control_leaves(params))
}

/// The test that a system is off, and loses its states; `None` never holds.
///
/// Fails only when memory runs out.
pub(crate) fn off_test(
    alloc: Global,
    layout: &Layout<'_>,
    params: &Params,
) -> Result<Option<Cond>, Memory>
    ensures { IfOk result
        (λ off. option_map cond_tree off ≡ node.off_test layout.now.local params.now) }
{
    off_by(alloc, layout.local().control, layout.control_leaves(params))
}

/// The test that the enable of a system is low; `None` never holds.
///
/// Fails only when memory runs out.
pub(crate) fn disabled_test(
    alloc: Global,
    layout: &Layout<'_>,
    params: &Params,
) -> Result<Option<Cond>, Memory>
    ensures { let local = layout.now.local in IfOk result (λ disabled. option_map cond_tree disabled
        ≡ test.disabled_by local.control (node.control_leaves local params.now)) }
{
    disabled_by(alloc, layout.local().control, layout.control_leaves(params))
}

/// The test that a system is active and that the tick is one of a row's; `None` always holds.
///
/// Fails only when memory runs out.
pub(crate) fn runs_test(
    alloc: Global,
    layout: &Layout<'_>,
    params: &Params,
    row: &LocalRow,
) -> Result<Option<Cond>, Memory>
    ensures { IfOk result
        (λ runs. option_map cond_tree runs ≡ node.runs_test layout.now.local params.now row.now) }
{
    let active = active_test(alloc, layout, params)?;
    let hit = hit_test(alloc, row.time, params.now_leaf())?;
    both_tests(alloc, active, hit)
}
