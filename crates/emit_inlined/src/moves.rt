use crate::params::{Params, param_of};
use crate::places::Places;
use crate::placing::place_of;
use c_renaming::Renaming;
use c_syntax::Leaf;

/// What code becomes: which parameters it reads, and where the procedures are that it calls.
#[derive(Clone, Copy)]
pub(crate) struct Moves<'a> {
    pub(crate) params: &'a Params,
    pub(crate) places: &'a Places,
}

impl<'a> Renaming for Moves<'a> {
    ghost use Rattle.emit_inlined.specs.Inlined.{moved_leaf};
    ghost use Rattle.emit_inlined.specs.Steps.{move_param, move_place};

    ghost leaf_of = { λ moves leaf. moved_leaf (move_param moves) (move_place moves) leaf };

    ghost function_of = { λ moves k. k };

    ghost procedure_of = { move_place };

    fn leaf(&self, leaf: Leaf) -> Leaf {
        match leaf {
            Leaf::Param(param) => Leaf::Param(param_of(self.params, param)),
            Leaf::Own(field) => Leaf::Own(field),
            Leaf::Child(field, inner) => Leaf::Child(field, inner),
        }
    }

    fn function(&self, function: u32) -> u32 {
        function
    }

    fn procedure(&self, procedure: u32) -> u32 {
        place_of(self.places, procedure)
    }
}
