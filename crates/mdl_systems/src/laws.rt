ghost use Rattle.mdl_systems.specs.ByDefaults.{ReadingIsByDefaults};
ghost use Rattle.mdl_systems.specs.Nesting.{DepthsAreOwnersAround, OutlinesAreInPreorder, OutlinesAreNumbered, OwnersAreBefore};
ghost use Rattle.mdl_systems.specs.Owners.{OwnIsByOwner};
ghost use Rattle.mdl_systems.specs.Subsystems.{ChildrenAreBySubsystems, SystemsAreBySubsystems};

/// The number of a block is its place in the order of the file.
pub fn outlines_are_numbered()
    ensures { OutlinesAreNumbered }
{}

/// A block says the same by defaults that give the same parameters for each type of block.
pub fn reading_is_by_defaults()
    ensures { ReadingIsByDefaults }
{}

/// A block is in the root, at depth 0, or in a subsystem block before it, one level deeper than that.
pub fn owners_are_before()
    ensures { OwnersAreBefore }
{}

/// After a block come the blocks inside it, or the next block of a system around it.
pub fn outlines_are_in_preorder()
    ensures { OutlinesAreInPreorder }
{}

/// The depth of a block is the number of subsystem blocks around it.
pub fn depths_are_owners_around()
    ensures { DepthsAreOwnersAround }
{}

/// The own blocks of a system are those whose owner is its row, in order: of the root and of all systems inside it.
pub fn own_blocks_are_by_owner()
    ensures { OwnIsByOwner }
{}

/// The systems directly inside a system are those of its subsystem blocks, in order: in the root and in all inside it.
pub fn children_are_by_subsystems()
    ensures { ChildrenAreBySubsystems }
{}

/// Of all systems, that with the number of a subsystem block is the one inside this block, and that without one the root's.
pub fn systems_are_by_subsystems()
    ensures { SystemsAreBySubsystems }
{}
