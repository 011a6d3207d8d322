// One tick of a file.
ghost use Rattle.std.specs.Prelude.{◌≡◌, ◌+◌, ◌≤◌, length, true, map, Some, take, drop};
ghost use Rattle.std.specs.List.{list_all};
ghost use Rattle.lustre_syntax.specs.Plain.{file_tree};
ghost use Rattle.lustre_flows.specs.Instances.{has_value};
ghost use Rattle.lustre_flows.specs.Ticks.{last_node, stuck_place};
ghost use Rattle.lustre_solver.specs.Searching.{searching, HasRoom};
ghost use Rattle.lustre_interpreter.specs.Tables.{IsReady, IsRun, frame_tree, frame_before, frame_laid};

use crate::places::{Told, least_place};
use lustre_evaluation::Frame;
use lustre_flows::LusStuck;
use lustre_slots::Placed;
use lustre_solver::Search;
use lustre_syntax::LusFile;

// Whether all slots have values.
fn are_whole(values: &[Option<i64>]) -> bool
    ensures { result ≡ list_all has_value values.now }
{
    for value in values {
        if value.is_none() {
            return false;
        }
    }
    true
}

// Where a tick is stuck that left these values, if it is.
fn place_of(frame: &Frame, instances: &[Placed], search: &Search) -> Option<LusStuck>
    requires { IsReady frame.now instances.now (searching search.now) }
    ensures { result ≡ stuck_place (frame_tree frame.now) (frame_before frame.now)
        (frame_laid frame.now (searching search.now).now) }
{
    match least_place(Told::Failures, frame, search.values(), instances) {
        Some(at) => Some(at),
        None => least_place(Told::Waiting, frame, search.values(), instances),
    }
}

/// A tick on a row, whose values are those that the search finds. The result is the place where it is stuck.
pub(crate) fn run_tick(
    frame: &Frame,
    instances: &[Placed],
    search: &mut Search,
    row: &[i64],
) -> Option<LusStuck>
    requires ready { IsReady frame.now instances.now (searching search.old) }
    requires row { length row.now ≡ (last_node (frame_tree frame.now)).inputs }
    ensures room { HasRoom (length frame.now.sources.now) (searching search.new) }
    ensures run { IsRun frame.now row.now (searching search.new).now result }
{
    search.start(row);
    search.settle(frame);
    if are_whole(search.values()) {
        None
    } else {
        place_of(frame, instances, search)
    }
}

/// Keeps the values of a tick, which are all there.
pub(crate) fn keep(values: &[Option<i64>], into: &mut [i64])
    requires whole { list_all has_value values.now ≡ true }
    requires room { length into.old ≡ length values.now }
    ensures { map Some into.new ≡ values.now }
{
    for k in 0..values.len() {
        if let Some(value) = values[k] {
            into[k] = value;
        }
    }
}

// How many inputs the last node has.
fn input_count(file: &LusFile) -> usize
    ensures { result ≡ (last_node (file_tree file.now)).inputs }
{
    match file.nodes.last() {
        Some(node) => node.inputs as usize,
        None => 0,
    }
}

/// Writes the outputs of the last node, which come after its inputs.
pub(crate) fn put_outputs(file: &LusFile, values: &[i64], outputs: &mut [i64])
    requires { (last_node (file_tree file.now)).inputs + length outputs.old ≤ length values.now }
    ensures { outputs.new
        ≡ take (length outputs.old) (drop (last_node (file_tree file.now)).inputs values.now) }
{
    let first = input_count(file);
    outputs.copy_from_slice(&values[first..first + outputs.len()]);
}
