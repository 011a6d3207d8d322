ghost use Rattle.std.specs.Prelude.{◌≡◌, ℕ, List, [], Contains, IfErr, IfOk};
ghost use Rattle.diagram_meaning.specs.ResolvedTable.{table_of_tree};
ghost use Rattle.diagram_verdict.specs.Verdict.{Accepted, HasVerdict};
ghost use Rattle.modules_profile.specs.Systems.{systems};
ghost use Rattle.c_rules.specs.Reading.{CText};
ghost use Rattle.tool_compiled.specs.Compilation.{IsCompilationOf};
ghost use Rattle.tool_driver.specs.Driven.{Driven, StandsFor};
ghost use Rattle.tool_system_driver.specs.SystemShapes.{IsSystemOfModel};
ghost use Rattle.tool_endings.specs.declared.ending.Ending.TheVariants.{NoMemory};

use crate::starting::started;
use base_core::Memory;
use c_reading_laws::readings_agree;
use diagram_meaning::Resolved;
use diagram_verdict::accepted_tables_are_well_formed;
use std::alloc::Global;
use tool_compiled::Compiled;
use tool_driver::Driver;
use tool_endings::Ending;
use tool_system_driver::{System, driver_of};

/// A driver of a system of an accepted model, over a machine of the model's code. It stands for the empty script.
///
/// # Errors
///
/// `NoMemory` alone, where memory ran out: right code is read and starts.
pub fn driver_in(
    alloc: Global,
    r: &Resolved,
    system: System,
    compiled: &Compiled,
) -> Result<Driver, Ending>
    requires accepted { (bytes : List ℕ) × HasVerdict bytes (Accepted (table_of_tree r.now)) }
    requires right { IsCompilationOf (table_of_tree r.now) compiled.now }
    requires system { Contains (systems r.now.tree.table.rows) system.row }
    ensures stands { IfOk result (λ d. (w : Driven) → IsSystemOfModel (table_of_tree r.now) system.row w →
        CText compiled.now.code w.program → StandsFor w d []) }
    ensures ended { IfErr result (λ ending. ending ≡ NoMemory) }
{
    readings_agree();
    accepted_tables_are_well_formed();
    let machine = match started(alloc, &compiled.code) {
        Ok(machine) => machine,
        // Right code is read and starts, so that only memory can run out.
        Err(ending) => return Err(ending),
    };
    match driver_of(alloc, r, system, machine) {
        Ok(driver) => Ok(driver),
        Err(Memory) => Err(Ending::NoMemory),
    }
}
