ghost use Rattle.std.specs.Prelude.{◌≡◌, length, IfOk, IfErr};
ghost use Rattle.lustre_interpreter.specs.States.{IsFirst, IsTicked, IsStuckTick, root_of};

use crate::ticks::{keep, put_outputs, run_tick};
use base_core::Memory;
use lustre_checked::LusChecked;
use lustre_evaluation::Frame;
use lustre_flows::LusStuck;
use lustre_slots::{Slots, slots_of};
use lustre_solver::Search;
use std::alloc::Global;
use std::marker::Model;

/// The flows of a file up to some tick.
///
/// The values of all instances are one list: of each instance its names, and then those of its calls in their order.
#[derive(Drop)]
pub struct Flows {
    file: LusChecked,
    slots: Slots,
    search: Search,
    before: Vec<i64>,
    begun: bool,
    stuck: Option<LusStuck>,
}

impl Model for Flows {
    ghost use Rattle.lustre_syntax.specs.contracts.code.LusExpr as expression;
    ghost use Rattle.std.specs.Coded.{codes};
    ghost use Rattle.lustre_solver.specs.Searching.{searching};
    ghost use Rattle.lustre_interpreter.specs.States.{FlowState};
    ghost use Rattle.lustre_interpreter.specs.Tables.{AreTables};

    ghost Value = { FlowState };

    ghost coded = { Prim.hlevel (codes, expression.the_row.coded) };

    ghost view = { λ f. record {
      file = f.file;
      begun = f.begun;
      values = f.before.items;
      stuck_place = f.stuck;
    } };

    ghost invariant = { λ f. AreTables f.file f.slots.instances.items f.slots.sources.items
        (searching f.search) f.before.items };
}

impl Flows {
    /// The flows before the first tick. All memory is taken here.
    ///
    /// # Errors
    ///
    /// Where memory runs out, or where a node has more than 2^32 names or instances in all.
    pub fn new(alloc: Global, f: LusChecked) -> Result<Flows, Memory>
        ensures { IfOk result (IsFirst f) }
    {
        let slots = slots_of(alloc, f.file())?;
        let count = slots.sources.len();
        let search = Search::new(alloc, count)?;
        let before = Vec::from_elem(alloc, 0, count)?;
        Ok(Flows {
            file: f,
            slots,
            search,
            before,
            begun: false,
            stuck: None,
        })
    }

    /// The next tick, on a number for each input of the last node; `outputs` gets the values of its outputs.
    ///
    /// # Errors
    ///
    /// Exactly where the tick is stuck, since some name gets no value: the least line of an equation with an expression that is
    /// undefined though all that it reads has a value, and why, or else of an equation without a value. `outputs` may then hold
    /// anything, and each further tick answers the same.
    pub fn tick(&mut self, inputs: &[i64], outputs: &mut [i64]) -> Result<(), LusStuck>
        requires inputs { length inputs.now ≡ (root_of self.old).inputs }
        requires outputs { length outputs.old ≡ (root_of self.old).outputs }
        ensures file { self.new.file ≡ self.old.file }
        ensures room { length outputs.new ≡ length outputs.old }
        ensures ticked { IfOk result (λ _. IsTicked self.old self.new inputs.now outputs.new) }
        ensures stuck { IfErr result (IsStuckTick self.old self.new inputs.now) }
    {
        if let Some(at) = self.stuck {
            return Err(at);
        }
        let frame = Frame {
            file: self.file.file(),
            sources: &self.slots.sources,
            begun: self.begun,
            before: &self.before,
        };
        if let Some(at) = run_tick(&frame, &self.slots.instances, &mut self.search, inputs) {
            self.stuck = Some(at);
            return Err(at);
        }
        keep(self.search.values(), &mut self.before);
        put_outputs(self.file.file(), &self.before, outputs);
        self.begun = true;
        Ok(())
    }
}
