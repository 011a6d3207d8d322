use crate::placing::place_of;
use c_renaming::Renaming;
use c_syntax::Leaf;

/// Where pure functions go of which some stay: by position, how many before it stay, and how many in all.
#[derive(Drop)]
pub(crate) struct Places {
    pub(crate) before: Vec<u32>,
    pub(crate) kept: u32,
}

impl Renaming for Places {
    ghost use Rattle.emit_pruned.specs.Marks.{place_in};

    ghost leaf_of = { λ places leaf. leaf };

    ghost function_of = { place_in };

    ghost procedure_of = { λ places k. k };

    fn leaf(&self, leaf: Leaf) -> Leaf {
        leaf
    }

    fn function(&self, function: u32) -> u32 {
        place_of(self, function)
    }

    fn procedure(&self, procedure: u32) -> u32 {
        procedure
    }
}
