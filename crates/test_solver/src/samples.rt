ghost use Rattle.std.specs.Prelude.{◌≡◌, [], IfOk, replicate};
ghost use Rattle.diagram_meaning.specs.Run as run;

use base_core::Memory;
use std::alloc::Global;
use std::marker::Model;

// The numbers that a row remembers, the oldest first: as many as a delay has samples, none where a row is no delay.
#[derive(Drop)]
pub(crate) struct Samples {
    numbers: Vec<i64>,
}

impl Model for Samples {
    ghost use Rattle.std.specs.Prelude.{List, ℤ};

    ghost Value = { List ℤ };

    ghost view = { λ s. s.numbers.items };
}

impl Samples {
    // No numbers.
    pub fn none(alloc: Global) -> Samples
        ensures { result ≡ [] }
    {
        Samples {
            numbers: Vec::new(alloc),
        }
    }

    // One number, as often as `count` says.
    pub fn repeated(alloc: Global, number: i64, count: usize) -> Result<Samples, Memory>
        ensures { IfOk result (λ s. s ≡ replicate count number) }
    {
        let numbers = vec![in alloc; number; count]?;
        Ok(Samples { numbers })
    }

    // The same numbers.
    pub fn copied(&self, alloc: Global) -> Result<Samples, Memory>
        ensures { IfOk result (λ s. s ≡ self.now) }
    {
        let numbers = Vec::from_slice(alloc, self.numbers.as_slice())?;
        Ok(Samples { numbers })
    }

    // The numbers without the first, and `last` after them.
    pub fn moved_on(&self, alloc: Global, last: i64) -> Result<Samples, Memory>
        ensures { IfOk result (λ s. s ≡ run.moved_on self.now last) }
    {
        let mut numbers = match self.numbers.as_slice() {
            [_, rest @ ..] => Vec::from_slice(alloc, rest)?,
            [] => Vec::new(alloc),
        };
        numbers.push(last)?;
        Ok(Samples { numbers })
    }

    // The first number, 0 where there is none.
    pub fn first(&self) -> i64
        ensures { result ≡ run.first_of self.now }
    {
        match self.numbers.as_slice().first() {
            Some(number) => *number,
            None => 0,
        }
    }
}
