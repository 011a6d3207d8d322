use base_core::Memory;
use base_refusals::Refusal;
use diagram_meaning::BuildFault;
use mdl_reader::ReadFault;

/// Why a file gives no model: it is refused, or there was no memory.
#[derive(Debug, Drop)]
pub enum ModelFault {
    /// The first refusal.
    Refused(Refusal),
    /// Out of memory.
    Memory,
}

impl From<Memory> for ModelFault {
    ghost use Rattle.std.specs.Prelude.{◌≡◌};
    ghost use Rattle.diagram_verdict.specs.declared.fault.ModelFault.TheVariants as fault;

    ghost from_gives = { λ _ given. given ≡ fault.Memory };

    fn from(_memory: Memory) -> ModelFault {
        ModelFault::Memory
    }
}

impl From<ReadFault> for ModelFault {
    ghost use Rattle.std.specs.Prelude.{◌≡◌};
    ghost use Rattle.diagram_verdict.specs.Faults.{as_read_fault};

    ghost from_gives = { λ read given. given ≡ as_read_fault read };

    fn from(fault: ReadFault) -> ModelFault {
        match fault {
            ReadFault::Syntax { line, kind } => {
                ModelFault::Refused(Refusal::Syntax { line, kind })
            }
            ReadFault::Memory => ModelFault::Memory,
        }
    }
}

impl From<BuildFault> for ModelFault {
    ghost use Rattle.std.specs.Prelude.{◌≡◌};
    ghost use Rattle.diagram_verdict.specs.Faults.{as_built_fault};

    ghost from_gives = { λ built given. given ≡ as_built_fault built };

    fn from(fault: BuildFault) -> ModelFault {
        match fault {
            BuildFault::Refused(refusal) => ModelFault::Refused(refusal),
            BuildFault::Memory => ModelFault::Memory,
        }
    }
}
