ghost use Rattle.modules_profile.specs.NodeFacts.{HeaderIsOfOwnRows, HeadersAreOne, LocalsAreLawful, NodesHaveNoLoop, NodesReachAsRows, ProfilesAreLeast, ProfilesAreOne};
ghost use Rattle.modules_profile.specs.TreeProfiles.{TreeHasAllSystems};

use base_core::needs_are_least;

/// A system has at most one profile.
pub fn profiles_are_one()
    ensures { ProfilesAreOne }
{}

/// The children of a system have at most one list of headers.
pub fn headers_are_one()
    ensures { HeadersAreOne }
{}

/// The header that a system has by its own rows is the one that the system around it sees.
pub fn header_is_of_own_rows()
    ensures { HeaderIsOfOwnRows }
{}

/// Every exact interface for what the outputs of a system need has at least as many output functions as its profile.
pub fn profiles_are_least()
    ensures { ProfilesAreLeast }
{
    needs_are_least();
}

/// A row of a system reaches an output of it, through all that is inside its children, exactly where its node does, by
/// what the headers of the children say.
pub fn nodes_reach_as_rows()
    ensures { NodesReachAsRows }
{}

/// Where no rows of a model form a loop, no nodes of a system of it do.
pub fn nodes_have_no_loop()
    ensures { NodesHaveNoLoop }
{}

/// What a resolved model has as its systems by their own rows is lawful.
pub fn locals_are_lawful()
    ensures { LocalsAreLawful }
{}

/// The systems of a resolved tree are the root and the subsystems of its table by row: so `profiles_of` gives the profile
/// of each of them once, in this order.
pub fn tree_has_all_systems()
    ensures { TreeHasAllSystems }
{}
