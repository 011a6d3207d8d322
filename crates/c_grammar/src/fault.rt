ghost use Rattle.std.specs.Prelude.{◌≡◌};
ghost use Rattle.c_grammar.specs.declared.fault.ReadCFault.TheVariants as fault;

use base_core::Memory;
use c_syntax::CFault;
use std::alloc::{AllocError, AllocFailed};

/// Why a text is not read.
#[derive(Clone, Copy, Debug, PartialEq, Eq, Drop)]
pub enum ReadCFault {
    /// The text has no reading: its first error.
    Refused(CFault),
    /// Memory ran out.
    Memory,
}

impl From<CFault> for ReadCFault {
    ghost from_gives = { λ refused given. given ≡ fault.Refused refused };

    fn from(fault: CFault) -> ReadCFault {
        ReadCFault::Refused(fault)
    }
}

impl From<AllocError> for ReadCFault {
    ghost from_gives = { λ _ given. given ≡ fault.Memory };

    fn from(_refused: AllocError) -> ReadCFault {
        ReadCFault::Memory
    }
}

impl From<Memory> for ReadCFault {
    ghost from_gives = { λ _ given. given ≡ fault.Memory };

    fn from(_refused: Memory) -> ReadCFault {
        ReadCFault::Memory
    }
}

impl<T: Drop> From<AllocFailed<T>> for ReadCFault {
    ghost from_gives = { λ _ given. given ≡ fault.Memory };

    fn from(_refused: AllocFailed<T>) -> ReadCFault {
        ReadCFault::Memory
    }
}
