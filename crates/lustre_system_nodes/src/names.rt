// The names of a node with their types.
ghost use Rattle.std.specs.Prelude.{◌≡◌, ◌∷◌, ◌++◌, [], OnOk};
ghost use Rattle.lustre_syntax.specs.Plain.{declared_names};
ghost use Rattle.lustre_system.specs.Functions.{int_name};
ghost use Rattle.lustre_system.specs.RowEquations.{bool_name};

use base_core::{Memory, Text};
use std::alloc::Global;
use std::marker::Model;

/// The names of a node, each with whether it is a truth value.
#[derive(Drop)]
pub struct Names {
    list: Vec<(Text, bool)>,
}

impl Model for Names {
    ghost use Rattle.std.specs.Prelude.{List};
    ghost use Rattle.lustre_syntax.specs.Plain.{declared_names};
    ghost use Rattle.lustre_syntax.specs.Tree.{Declared};

    ghost Value = { List Declared };

    ghost view = { λ names. declared_names names.list.items };
}

impl Names {
    /// No names.
    pub(crate) fn new(alloc: Global) -> Names
        ensures { result ≡ [] }
    {
        Names {
            list: Vec::new(alloc),
        }
    }

    /// One more name of a number.
    pub(crate) fn push_int(&mut self, text: Text) -> Result<(), Memory>
        ensures { OnOk result (self.new ≡ self.old ++ int_name text ∷ []) }
    {
        self.list.push((text, false))?;
        Ok(())
    }

    /// One more name of a truth value.
    pub(crate) fn push_bool(&mut self, text: Text) -> Result<(), Memory>
        ensures { OnOk result (self.new ≡ self.old ++ bool_name text ∷ []) }
    {
        self.list.push((text, true))?;
        Ok(())
    }

    /// The names in their order.
    pub(crate) fn list(&self) -> &[(Text, bool)]
        ensures { declared_names result.now ≡ self.now }
    {
        self.list.as_slice()
    }

    /// The names in the vector that holds them.
    pub(crate) fn into_list(self) -> Vec<(Text, bool)>
        ensures { declared_names result.items ≡ self }
    {
        self.list
    }
}
