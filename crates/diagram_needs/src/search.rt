// Depth-first search along edges. No answer rests on it, and so nothing is promised of it but that it ends: what it finds
// is tried, and only saves time.
use base_core::Memory;
use std::alloc::Global;

/// A search along edges, each from its first row to its second.
#[derive(Drop)]
pub(crate) struct Search<'e> {
    edges: &'e [(u32, u32)],
    // for each row the place of the next edge to follow from it, counted from 1, and 0 after the last
    next: Vec<usize>,
    // for each edge the place of the one to follow after it
    behind: Vec<usize>,
    seen: Vec<bool>,
    // the rows from the root of the search to where it is
    path: Vec<u32>,
    // the rows that were left, all that they lead to before them
    left: Vec<u32>,
}

impl<'e> Search<'e> {
    /// A search among so many rows that has seen none.
    pub(crate) fn new(
        alloc: Global,
        rows: u32,
        edges: &'e [(u32, u32)],
    ) -> Result<Search<'e>, Memory> {
        let mut next = vec![in alloc; 0; rows as usize]?;
        let mut behind = Vec::new(alloc);
        for (k, edge) in edges.iter().enumerate() {
            let from = edge.0 as usize;
            if from < next.len() {
                behind.push(next[from])?;
                next[from] = k + 1;
            } else {
                behind.push(0)?;
            }
        }
        Ok(Search {
            edges,
            next,
            behind,
            seen: vec![in alloc; false; rows as usize]?,
            path: Vec::new(alloc),
            left: Vec::new(alloc),
        })
    }

    /// The rows that were left since this was last asked, in this order.
    pub(crate) fn take_left(&mut self, alloc: Global) -> Vec<u32> {
        std::mem::replace(&mut self.left, Vec::new(alloc))
    }

    /// Visits all rows that `root` leads to and that were not seen.
    pub(crate) fn visit(&mut self, root: u32) -> Result<(), Memory> {
        self.enter(root)?;
        let most = self.seen.len().saturating_add(self.edges.len());
        for _ in 0..most {
            match self.path.pop() {
                None => return Ok(()),
                Some(row) => self.pass(row)?,
            }
        }
        Ok(())
    }

    // Goes on from a row along its next edge, or leaves it after its last.
    fn pass(&mut self, row: u32) -> Result<(), Memory> {
        match self.follow(row) {
            Some(to) => {
                self.path.push(row)?;
                self.enter(to)
            }
            None => Ok(self.left.push(row)?),
        }
    }

    // The row that the next edge from a row leads to.
    fn follow(&mut self, row: u32) -> Option<u32> {
        let from = row as usize;
        if from >= self.next.len() {
            return None;
        }
        let at = self.next[from];
        if at == 0 || at > self.edges.len() || at > self.behind.len() {
            return None;
        }
        self.next[from] = self.behind[at - 1];
        Some(self.edges[at - 1].1)
    }

    fn enter(&mut self, row: u32) -> Result<(), Memory> {
        let at = row as usize;
        if at < self.seen.len() && !self.seen[at] {
            self.seen[at] = true;
            self.path.push(row)?;
        }
        Ok(())
    }
}
