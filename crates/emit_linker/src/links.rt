/// Where what a code names goes: its own procedures, those that its children offer and their outputs, and its struct.
#[derive(Drop)]
pub(crate) struct Links<'a> {
    /// How many procedures the code has.
    pub own: u32,
    /// The position of the first one.
    pub first: u32,
    /// The positions of those that its children offer.
    pub offered: Vec<u32>,
    /// The outputs of the code of each field.
    pub outputs: Vec<&'a [u32]>,
    /// The outputs past the last field.
    pub beyond: &'a [u32],
    /// The position of the code's struct.
    pub of: u32,
}
