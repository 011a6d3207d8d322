// Definitions by name.
ghost use Rattle.std.specs.Prelude.{◌≡◌, None, Some, MatchOption, map, slice_get, bytes_eq};
ghost use Rattle.std.specs.List.{position_from};
ghost use Rattle.c_syntax.specs.Plain.{pure_tree, procedure_tree};
ghost use Rattle.c_syntax.specs.Outputs.{has_name};
ghost use Rattle.c_rules.specs.Resolve as rules;
ghost use Rattle.c_resolver.specs.Scopes.{known_of};

use crate::known::Known;
use c_syntax::{Procedure, Pure};

impl<'a> Known<'a> {
    /// Whether a function or a procedure has this name.
    pub(crate) fn has_function(&self, name: &[u8]) -> bool
        ensures { result ≡ has_name (rules.function_names (known_of self.now)) name.now }
    {
        self.pures.contains(name) || self.procedures.contains(name)
    }

    /// The pure function of this name, with its position.
    pub(crate) fn pure(&self, name: &[u8]) -> Option<(u32, &Pure)>
        ensures { let pures = (known_of self.now).pures in
            let place = position_from (λ p. bytes_eq p.name name.now) 0 pures in
            MatchOption result (place ≡ None) (λ found. (place ≡ Some found.0)
            × (slice_get pures found.0 ≡ Some (pure_tree found.1.now))) }
    {
        self.pures.find(name)
    }

    /// The procedure of this name, with its position.
    pub(crate) fn procedure(&self, name: &[u8]) -> Option<(u32, &Procedure)>
        ensures { let procedures = (known_of self.now).procedures in
            let place = position_from (λ p. bytes_eq p.name name.now) 0 procedures in
            MatchOption result (place ≡ None) (λ found. (place ≡ Some found.0)
            × (slice_get procedures found.0 ≡ Some (procedure_tree found.1.now))) }
    {
        self.procedures.find(name)
    }

    /// Whether a procedure has this name.
    pub(crate) fn has_procedure(&self, name: &[u8]) -> bool
        ensures { result ≡ has_name (map (λ p. p.name) (known_of self.now).procedures) name.now }
    {
        self.procedures.contains(name)
    }
}
