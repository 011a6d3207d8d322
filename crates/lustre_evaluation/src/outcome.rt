use lustre_flows::LusWhy;

/// Why an expression or a slot has no value.
#[derive(Clone, Copy, Debug, PartialEq, Eq, Drop)]
pub enum Unmet {
    /// It needs this name or slot, which has no value so far.
    Waits(usize),
    /// It needs a name that is not there; no lawful file has such an expression.
    Never,
    /// It is undefined.
    Fails(LusWhy),
}
