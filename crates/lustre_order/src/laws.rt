ghost use Rattle.lustre_order.specs.OrderLaws.{ActivityIsOrdered, SamplesAreOrdered, TakingIsOrdered, TriggersAreOrdered, ValuesAreOrdered};

/// Whether a system is active and reset rests on what is around it, its controls, and what its trigger remembers.
pub fn activity_is_in_order()
    ensures { ActivityIsOrdered }
{}

/// What a system's trigger remembers rests on the tick before alone.
pub fn triggers_are_in_order()
    ensures { TriggersAreOrdered }
{}

/// The samples of a delay rest on the tick before alone.
pub fn samples_are_in_order()
    ensures { SamplesAreOrdered }
{}

/// Whether a delay takes a sample rests on the tick and its system's activity.
pub fn taking_is_in_order()
    ensures { TakingIsOrdered }
{}

/// A row's value, and each call of a function for it, rest on what the row reads and on calls before.
pub fn values_are_in_order()
    ensures { ValuesAreOrdered }
{}
