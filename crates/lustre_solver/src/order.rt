use std::alloc::{AllocError, Global};
use std::mem;

/// The order in which slots got their values. It decides how long the next search takes, and nothing else.
#[derive(Drop)]
pub(crate) struct Order {
    last: Vec<usize>,
    next: Vec<usize>,
    count: usize,
}

impl Order {
    /// So many slots, in their own order.
    pub(crate) fn new(alloc: Global, slots: usize) -> Result<Order, AllocError> {
        let mut last = Vec::from_elem(alloc, 0, slots)?;
        for (k, slot) in last.iter_mut().enumerate() {
            *slot = k;
        }
        Ok(Order {
            last,
            next: Vec::from_elem(alloc, 0, slots)?,
            count: 0,
        })
    }

    /// How many slots there are.
    pub(crate) fn len(&self) -> usize {
        self.last.len()
    }

    /// The slot at a position of the last search.
    #[inline(always)]
    pub(crate) fn slot(&self, position: usize) -> usize {
        self.last.get(position).copied().unwrap_or(0)
    }

    /// A slot got its value.
    #[inline(always)]
    pub(crate) fn note(&mut self, slot: usize) {
        if let Some(place) = self.next.get_mut(self.count) {
            *place = slot;
            self.count += 1;
        }
    }

    /// The search is over.
    pub(crate) fn turn(&mut self) {
        mem::swap(&mut self.last, &mut self.next);
        self.count = 0;
    }
}
