ghost use Rattle.std.specs.Prelude.{◌≡◌, ℕ, IfOk, nat_eq, length};
ghost use Rattle.indexmap.specs.IndexMap.{get};
ghost use Rattle.emit_system_spec.specs.Fields.{first_place};
ghost use Rattle.emit_layout.specs.Tables.{TellsPlaces};

use base_core::Memory;
use indexmap::IndexMap;
use std::alloc::Global;
use std::marker::Model;

/// Numbers in a list, each found at its first place: the list.
#[derive(Drop)]
pub struct Positions {
    keys: Vec<u32>,
    // In a box, which is dropped by one call.
    places: Box<IndexMap<u32, usize>>,
}

impl Model for Positions {
    ghost use Rattle.std.specs.Prelude.{List, ℕ, nat_eq};
    ghost use Rattle.indexmap.specs.IndexMap.{get};
    ghost use Rattle.emit_layout.specs.Tables.{TellsPlaces};

    ghost Value = { List ℕ };

    ghost view = { λ p. p.keys.items };

    ghost invariant = { λ p. TellsPlaces p.keys.items (get nat_eq p.places.value) };
}

impl Positions {
    /// The places of these numbers, made in time linear in how many there are.
    ///
    /// Fails only when memory runs out.
    pub fn new(alloc: Global, keys: Vec<u32>) -> Result<Positions, Memory>
        ensures { IfOk result (λ p. p ≡ keys.items) }
    {
        let places = Box::new(alloc, first_places(alloc, &keys)?)?;
        Ok(Positions { keys, places })
    }

    /// How many numbers there are.
    pub fn count(&self) -> usize
        ensures { result ≡ length self.now }
    {
        self.keys.len()
    }

    /// The numbers in their order.
    pub fn keys(&self) -> &[u32]
        ensures { result.now ≡ self.now }
    {
        self.keys.as_slice()
    }

    /// The first place of a number, in constant expected time.
    pub fn place(&self, key: u32) -> Option<usize>
        ensures { result ≡ first_place self.now key }
    {
        self.places.get(&key).copied()
    }
}

// The first place of each number. The first ones come last and stay.
fn first_places(alloc: Global, keys: &[u32]) -> Result<IndexMap<u32, usize>, Memory>
    ensures { IfOk result (λ places. TellsPlaces keys.now (get nat_eq places)) }
{
    let mut places = IndexMap::new(alloc);
    for place in (0..keys.len()).rev() {
        places.insert(keys[place], place)?;
    }
    Ok(places)
}
