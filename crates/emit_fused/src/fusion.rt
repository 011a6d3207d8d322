/// How two neighbouring `if`s are one.
#[derive(Clone, Copy, Drop)]
pub(crate) enum Fusion {
    /// They stay two.
    Apart,
    /// The tests are the same.
    Straight,
    /// The second test is `!` of the first.
    Crossed,
    /// The first test is `!` of the second.
    Turned,
}
