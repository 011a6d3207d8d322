use base_core::Port;
use modules_certificate::Certificate;
use modules_profile::Profile;
use std::marker::Model;

/// A system with its output functions, and the certificate that no interface has fewer: its place k is that of
/// function k + 1.
///
/// The system is that of a subsystem row, or the root. It has so many inputs, and then the controls, an enable before a
/// trigger, and so many outputs.
#[derive(Drop)]
pub struct SystemReport {
    /// The number of the subsystem row, or none for the root.
    pub row: Option<u32>,
    /// How many inputs it has.
    pub inputs: u32,
    /// Its controls, an enable before a trigger.
    pub controls: Vec<Port>,
    /// How many outputs it has.
    pub outputs: u32,
    /// Its output functions, each with the inputs it takes.
    pub profile: Profile,
    /// That no interface has fewer functions.
    pub certificate: Certificate,
}

impl Model for SystemReport {
    ghost use Rattle.modules_report.specs.PlainReport.{PlainReport};

    ghost Value = { PlainReport };

    ghost view = { λ r. record {
      row = r.row;
      inputs = r.inputs;
      controls = r.controls.items;
      outputs = r.outputs;
      profile = r.profile;
      certificate = r.certificate;
    } };
}
