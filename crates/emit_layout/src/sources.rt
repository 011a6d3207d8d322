ghost use Rattle.std.specs.Prelude.{◌≡◌, IfOk, map, slice_get, option_and_then};
ghost use Rattle.emit_system_spec.specs.Fields.{first_place};

use crate::positions::Positions;
use base_core::Memory;
use emit_system_spec::Source;
use std::alloc::Global;
use std::marker::Model;

/// What wires can read, each found by its row: the list of sources.
#[derive(Drop)]
pub struct Sources {
    list: Vec<Source>,
    rows: Positions,
}

impl Model for Sources {
    ghost use Rattle.std.specs.Prelude.{◌≡◌, List, map};
    ghost use Rattle.emit_system_spec.specs.declared.source.Source.{Source};

    ghost Value = { List Source };

    ghost view = { λ s. s.list.items };

    ghost invariant = { λ s. s.rows ≡ map (λ source. source.row) s.list.items };
}

impl Sources {
    /// These sources, to be found by their rows: made in time linear in how many there are.
    ///
    /// Fails only when memory runs out.
    pub fn new(alloc: Global, list: Vec<Source>) -> Result<Sources, Memory>
        ensures { IfOk result (λ s. s ≡ list.items) }
    {
        let rows = Positions::new(alloc, rows_of(alloc, &list)?)?;
        Ok(Sources { list, rows })
    }

    /// The first source of a row's value.
    pub fn of(&self, row: u32) -> Option<Source>
        ensures { result
            ≡ option_and_then (slice_get self.now)
            (first_place (map (λ source. source.row) self.now) row) }
    {
        match self.rows.place(row) {
            Some(place) => self.list.get(place).copied(),
            None => None,
        }
    }
}

// The rows of some sources.
fn rows_of(alloc: Global, list: &[Source]) -> Result<Vec<u32>, Memory>
    ensures { IfOk result (λ v. v.items ≡ map (λ source. source.row) list.now) }
{
    let mut rows = Vec::new(alloc);
    for source in list {
        rows.push(source.row)?;
    }
    Ok(rows)
}
