// The names that equations give.
ghost use Rattle.std.specs.Prelude.{◌≡◌, ◌++◌, ◌∷◌, [], map, IfOk};
ghost use Rattle.c_rules.specs.Gives.{Gives};
ghost use Rattle.c_rules.specs.Resolve.{on_line};
ghost use Rattle.lustre_rules.specs.Resolve as rules;
ghost use Rattle.lustre_resolver.specs.Scopes.{scope_of};

use crate::known::Place;
use c_rules::fault_at;
use c_syntax::CKind;
use indexmap::IndexSet;
use lustre_grammar::ReadLusFault;
use std::alloc::Global;

/// The positions of the names that the equations of a node have given so far, in order.
#[derive(Drop)]
pub(crate) struct Given {
    pub(crate) places: IndexSet<u32>,
}

impl Given {
    /// No names.
    pub(crate) fn new(alloc: Global) -> Given
        ensures { result.places.keys ≡ [] }
    {
        Given {
            places: IndexSet::new(alloc),
        }
    }

    /// The position of a name that is given on this line: one of the node, no input, and given by no equation before.
    pub(crate) fn take(
        &mut self,
        place: &Place,
        line: u32,
        name: &[u8],
    ) -> Result<u32, ReadLusFault>
        ensures given { Gives (λ k. k) result
            (on_line line (rules.resolve_given (scope_of place.now self.old.places.keys) name.now)) }
        ensures taken { IfOk result (λ k. self.new.places.keys ≡ self.old.places.keys ++ k ∷ []) }
    {
        let refused = ReadLusFault::Refused(fault_at(line, CKind::Name));
        let Some(k) = place.names.position(name) else {
            return Err(refused);
        };
        if k < place.inputs {
            return Err(refused);
        }
        let is_new = self.places.insert(k)?;
        if is_new { Ok(k) } else { Err(refused) }
    }

    /// The positions of names that a call gives on this line, each of them once.
    pub(crate) fn take_all(
        &mut self,
        alloc: Global,
        place: &Place,
        line: u32,
        names: &[&[u8]],
    ) -> Result<Vec<u32>, ReadLusFault>
        ensures given { Gives (λ v. v.items) result
            (on_line line (rules.resolve_all_given (scope_of place.now self.old.places.keys)
            (map (λ name. name.now) names.now))) }
        ensures taken { IfOk result (λ v. self.new.places.keys
            ≡ self.old.places.keys ++ v.items) }
    {
        let mut places = Vec::new(alloc);
        for name in names {
            places.push(self.take(place, line, name)?)?;
        }
        Ok(places)
    }
}
