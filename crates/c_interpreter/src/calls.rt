// Calls from outside of the procedures of an instance.
ghost use Rattle.std.specs.Prelude.{◌≡◌, ◌<◌, length, slice_get, Some};
ghost use Rattle.c_semantics.specs.Machine.{call_from_outside};
ghost use Rattle.c_interpreter.specs.Codes.{code_tree};
ghost use Rattle.c_interpreter.specs.Instances.{StructInstance};
ghost use Rattle.c_interpreter.specs.Numbering.{all_instances, root_cells, IsPlace, IsNumbering, HasInstance};
ghost use Rattle.c_interpreter.specs.Roots.{root_ended};
ghost use Rattle.c_interpreter.specs.Seen.{seen};
ghost use Rattle.c_interpreter.specs.Slots.{layout_at};
ghost use Rattle.c_interpreter.specs.Sound.{zero_at};

use crate::instances::{Numbering, Place, place_of};
use crate::roots::run_root;
use c_syntax::{Cost, Stuck};

// The place of an instance that is there.
fn place_there(numbering: &Numbering, instance: u32) -> Place
    requires numbering { IsNumbering numbering.now }
    requires there { instance < length (all_instances numbering.now) }
    ensures { IsPlace (code_tree numbering.now.code) numbering.now.code.layouts numbering.now.root
        instance result.of result.at }
{
    match place_of(numbering, instance) {
        Some(place) => place,
        None => unreachable!(),
    }
}

/// A call from outside of a procedure, on an instance among the numbers of the root.
pub(crate) fn run_instance(
    numbering: &Numbering,
    procedure: u32,
    instance: u32,
    values: &[i64],
    numbers: &mut [i64],
) -> Result<Cost, Stuck>
    requires numbering { IsNumbering numbering.now }
    requires there { HasInstance (code_tree numbering.now.code) numbering.now.root procedure instance }
    requires room { length numbers.old
        ≡ (layout_at numbering.now.code.layouts numbering.now.root).size }
    ensures { (i : StructInstance) → slice_get (all_instances numbering.now) instance ≡ Some i
        → root_ended (zero_at (code_tree numbering.now.code) numbering.now.root) result numbers.new
        ≡ seen 0 (call_from_outside (code_tree numbering.now.code) procedure i.path values.now
        (root_cells numbering.now numbers.old)) }
{
    let place = place_there(numbering, instance);
    let size = numbering.code.size_at(place.of);
    let inner = &mut numbers[place.at..place.at + size];
    run_root(&numbering.code, place.of, procedure as usize, values, inner)
}
