ghost use Rattle.std.specs.Prelude.{◌≡◌, ℕ, IfOk, List, OnOk};
ghost use Rattle.mdl_wiring.specs.Members.{members_seen};
ghost use Rattle.mdl_wiring.specs.NameMaps.{AreNamesOf, place_in, place_with, is_before};

use crate::member::Member;
use base_core::Memory;
use indexmap::IndexMap;
use std::alloc::Global;

/// Names, each with the place of the first block that has it.
pub(crate) type Names<'a> = IndexMap<&'a [u8], usize>;

/// Takes a name at a place, unless it was taken before.
fn take_name<'a>(places: &mut Names<'a>, name: &'a [u8], place: usize) -> Result<(), Memory>
    ensures { OnOk result ((other : List ℕ) →
        place_in places.new other ≡ place_with name.now place places.old other) }
{
    match places.insert(name, place)? {
        Some(first) => {
            places.insert(name, first)?;
            Ok(())
        }
        None => Ok(()),
    }
}

/// The names of these blocks.
pub(crate) fn names_of<'a>(alloc: Global, members: &[Member<'a>]) -> Result<Names<'a>, Memory>
    ensures { IfOk result (λ names. AreNamesOf (members_seen members.now) names) }
{
    let mut places = IndexMap::new(alloc);
    for (place, member) in members.iter().enumerate() {
        take_name(&mut places, member.name, place)?;
    }
    Ok(places)
}

/// The place of the first block of this name.
pub(crate) fn place_of(places: &Names, name: &[u8]) -> Option<usize>
    ensures { result ≡ place_in places.now name.now }
{
    places.get(name).copied()
}

/// Whether a place is there and before another.
pub(crate) fn is_before(place: Option<usize>, other: usize) -> bool
    ensures { result ≡ is_before place other }
{
    match place {
        Some(place) => place < other,
        None => false,
    }
}
