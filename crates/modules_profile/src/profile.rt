use std::marker::Model;

/// An output function of a system (Lublinerman and Tripakis, DATE 2008). Bit k - 1 of `inputs` is input k, bit 32 an
/// enable and bit 33 a trigger; bit k - 1 of `outputs` is output k.
#[derive(Clone, Copy, Debug, PartialEq, Eq, Drop)]
pub struct Function {
    /// The inputs that it takes.
    pub inputs: u64,
    /// The outputs that it gives.
    pub outputs: u32,
}

/// The output functions of the system of a subsystem row, or of the root.
#[derive(Drop)]
pub struct Profile {
    /// The subsystem row; none for the root.
    pub row: Option<u32>,
    /// The functions, by the least output of each; their numbers begin at 1.
    pub functions: Vec<Function>,
}

impl Model for Profile {
    ghost use Rattle.modules_profile.specs.SystemProfile.{SystemProfile};

    ghost Value = { SystemProfile };

    ghost view = { λ p. record { row = p.row; functions = p.functions.items } };
}
