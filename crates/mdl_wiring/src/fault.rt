use base_core::Memory;
use base_refusals::Refusal;

/// Why the lines of a system lead nowhere: the system is refused, or there was no memory.
#[derive(Debug, Drop)]
pub enum WiringFault {
    /// The first refusal.
    Refused(Refusal),
    /// Out of memory.
    Memory,
}

impl From<Memory> for WiringFault {
    ghost use Rattle.std.specs.Prelude.{◌≡◌};
    ghost use Rattle.mdl_wiring.specs.declared.fault.WiringFault.TheVariants as fault;

    ghost from_gives = { λ _ given. given ≡ fault.Memory };

    fn from(_memory: Memory) -> WiringFault {
        WiringFault::Memory
    }
}
