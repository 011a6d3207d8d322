use base_core::{Memory, Place};

/// Why a model has no file of Lustre.
#[derive(Debug, Drop)]
pub enum LusOfFault {
    /// The first delay of more than 64 samples.
    LongDelay(Place),
    /// Out of memory.
    Memory,
}

impl From<Memory> for LusOfFault {
    ghost use Rattle.std.specs.Prelude.{◌≡◌};
    ghost use Rattle.lustre_emitter.specs.declared.fault.LusOfFault.TheVariants as fault;

    ghost from_gives = { λ _ given. given ≡ fault.Memory };

    fn from(_memory: Memory) -> LusOfFault {
        LusOfFault::Memory
    }
}
