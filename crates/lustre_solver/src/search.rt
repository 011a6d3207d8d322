ghost use Rattle.std.specs.Prelude.{◌≡◌, length, IfOk};
ghost use Rattle.lustre_solver.specs.Searching.{searching, HasRoom, IsStarted};

use crate::order::Order;
use std::alloc::{AllocError, Global};

/// The values of slots at a tick, and what it takes to find them.
#[derive(Drop)]
pub struct Search {
    /// The values, as far as they are found.
    pub(crate) values: Vec<Option<i64>>,
    /// Which slots were tried.
    pub(crate) tried: Vec<bool>,
    /// Slots that wait, each for the next one; `depth` are in use.
    pub(crate) waiting: Vec<usize>,
    /// How many slots wait.
    pub(crate) depth: usize,
    /// In which order slots got their values.
    pub(crate) order: Order,
}

impl Search {
    /// Room for so many slots.
    ///
    /// # Errors
    ///
    /// Where memory runs out.
    pub fn new(alloc: Global, slots: usize) -> Result<Search, AllocError>
        ensures { IfOk result (λ s. HasRoom slots (searching s)) }
    {
        Ok(Search {
            values: Vec::from_elem(alloc, None, slots)?,
            tried: Vec::from_elem(alloc, false, slots)?,
            waiting: Vec::from_elem(alloc, 0, slots)?,
            depth: 0,
            order: Order::new(alloc, slots)?,
        })
    }

    /// Before a tick, the first slots have the values of the row, and the others have none.
    pub fn start(&mut self, row: &[i64])
        requires { HasRoom (length (searching self.old).now) (searching self.old) }
        ensures room { HasRoom (length (searching self.old).now) (searching self.new) }
        ensures started { IsStarted row.now (searching self.new) }
    {
        for slot in 0..self.values.len() {
            self.values[slot] = row.get(slot).copied();
            self.tried[slot] = slot < row.len();
        }
        self.depth = 0;
    }

    /// The values that were found.
    pub fn values(&self) -> &[Option<i64>]
        ensures { result.now ≡ (searching self.now).now }
    {
        &self.values
    }
}
