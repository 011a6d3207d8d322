use std::marker::Model;

/// That the outputs at two places of a list of representatives, counted from 0, differ in their needs: this bit lies in
/// the need of just one of them.
#[derive(Clone, Copy, Debug, PartialEq, Eq, Drop)]
pub struct Difference {
    /// The place of one output, from 0.
    pub first: u8,
    /// The place of the other output, from 0.
    pub second: u8,
    /// The number of a bit that lies in just one of the needs, from 0.
    pub bit: u8,
}

/// Outputs, numbered from 0, no two of which one function can give: for each two of their places, in order, a bit in
/// which the needs differ.
#[derive(Drop)]
pub struct Certificate {
    /// The outputs, numbered from 0.
    pub representatives: Vec<u8>,
    /// A difference for each two of their places, in order.
    pub differ: Vec<Difference>,
}

impl Model for Certificate {
    ghost use Rattle.modules_certificate.specs.PlainCertificate.{PlainCertificate};

    ghost Value = { PlainCertificate };

    ghost view = { λ c. record { representatives = c.representatives.items; differ = c.differ.items } };
}
