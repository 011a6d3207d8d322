ghost use Rattle.lustre_right.specs.NodeLaws.{SystemNamesAreDistinct, SystemsGiveTheirNames};

/// The names in the node of a system are lawful, and no two are equal.
pub fn system_names_are_distinct()
    ensures { SystemNamesAreDistinct }
{}

/// Each name in the node of a system is given by one equation, an input by none.
pub fn systems_give_their_names()
    ensures { SystemsGiveTheirNames }
{}
