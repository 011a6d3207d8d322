// How slots get their values.
ghost use Rattle.std.specs.Prelude.{◌≡◌, ◌-◌, ◌+◌, ◌<◌, length, Some, true, not, slice_set};
ghost use Rattle.lustre_solver.specs.Searching.{searching, was_tried, work, HasRoom, IsSearch, GoesOn, Solves};

use crate::search::Search;
use lustre_evaluation::{Frame, Unmet, answer};

impl Search {
    // Whether a slot is there and was not tried.
    #[inline(always)]
    fn is_new(&self, slot: usize) -> bool
        ensures { result ≡ not (was_tried (searching self.now).tried slot) }
    {
        match self.tried.get(slot) {
            Some(tried) => !*tried,
            None => false,
        }
    }

    // A slot is tried, and waits.
    #[inline(always)]
    fn enter(&mut self, slot: usize)
        requires there { slot < length (searching self.old).tried }
        requires room { self.old.depth < length (searching self.old).waiting }
        ensures { let s = searching self.old in searching self.new ≡ record {
          now = s.now;
          tried = slice_set s.tried slot true;
          waiting = slice_set s.waiting s.depth slot;
          depth = s.depth + 1;
        } }
    {
        self.tried[slot] = true;
        self.waiting[self.depth] = slot;
        self.depth += 1;
    }

    // The last slot that waits gets its value.
    #[inline(always)]
    fn give(&mut self, slot: usize, value: i64)
        requires there { slot < length (searching self.old).now }
        requires some { 0 < self.old.depth }
        ensures { let s = searching self.old in searching self.new ≡ record {
          now = slice_set s.now slot (Some value);
          tried = s.tried;
          waiting = s.waiting;
          depth = s.depth - 1;
        } }
    {
        self.values[slot] = Some(value);
        self.depth -= 1;
        self.order.note(slot);
    }

    // The last slot that waits gets its value, or the one that it waits for comes first, or all that wait wait for good.
    fn step(&mut self, frame: &Frame)
        requires search { IsSearch frame.now (searching self.old) }
        requires some { 0 < self.old.depth }
        ensures search { IsSearch frame.now (searching self.new) }
        ensures on { GoesOn frame.now (searching self.old) (searching self.new) }
        ensures nearer { work (searching self.new) < work (searching self.old) }
    {
        let slot = self.waiting[self.depth - 1];
        match answer(frame, &self.values, slot) {
            Ok(value) => self.give(slot, value),
            Err(Unmet::Waits(other)) => {
                if self.is_new(other) {
                    self.enter(other);
                } else {
                    self.depth = 0;
                }
            }
            Err(Unmet::Never) => self.depth = 0,
            Err(Unmet::Fails(_)) => self.depth = 0,
        }
    }

    // A slot gets its value, if it gets one, and so do those that it waits for.
    fn settle_slot(&mut self, frame: &Frame, slot: usize)
        requires search { IsSearch frame.now (searching self.old) }
        requires idle { self.old.depth ≡ 0 }
        ensures search { IsSearch frame.now (searching self.new) }
        ensures idle { self.new.depth ≡ 0 }
        ensures on { GoesOn frame.now (searching self.old) (searching self.new) }
        ensures tried { was_tried (searching self.new).tried slot ≡ true }
    {
        if self.is_new(slot) {
            self.enter(slot);
            while self.depth > 0 {
                self.step(frame);
            }
        }
    }

    /// Each slot gets its value, if it gets one. The values are those that each solution has.
    pub fn settle(&mut self, frame: &Frame)
        requires search { IsSearch frame.now (searching self.old) }
        requires idle { self.old.depth ≡ 0 }
        ensures solves { Solves frame.now (searching self.new).now }
        ensures on { GoesOn frame.now (searching self.old) (searching self.new) }
        ensures room { HasRoom (length (searching self.old).now) (searching self.new) }
    {
        for k in 0..self.order.len() {
            let slot = self.order.slot(k);
            self.settle_slot(frame, slot);
        }
        for slot in 0..self.values.len() {
            self.settle_slot(frame, slot);
        }
        self.order.turn();
    }
}
