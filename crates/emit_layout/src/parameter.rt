/// What a parameter of a procedure of a system is for.
#[derive(Clone, Copy, Debug, PartialEq, Eq, Drop)]
pub enum Parameter {
    /// The tick.
    Now,
    /// The input of a port, from 1.
    Input(u32),
    /// The only control, or of two the enable.
    FirstControl,
    /// Of two controls the trigger.
    SecondControl,
}
