use c_syntax::Leaf;

/// Where a system's controls are read, and what its trigger remembers: 0 not yet, 1 low, 2 high. A leaf that its kind of
/// control doesn't have is read by no test.
#[derive(Clone, Copy, Debug, PartialEq, Eq, Drop)]
pub struct ControlLeaves {
    /// The enable.
    pub enable: Leaf,
    /// The trigger.
    pub trigger: Leaf,
    /// What the trigger remembers.
    pub remembers: Leaf,
}

/// The own fields of a delay of several samples, by position.
#[derive(Clone, Copy, Debug, PartialEq, Eq, Drop)]
pub struct RingFields {
    /// The array of its items.
    pub items: u32,
    /// The place of the oldest item, an `int32_t`.
    pub place: u32,
    /// How many samples were taken, an `int32_t`.
    pub taken: u32,
}
