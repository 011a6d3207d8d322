ghost use Rattle.std.specs.Prelude.{◌≡◌};
ghost use Rattle.mdl_reader.specs.declared.fault.ReadFault.TheVariants.{Syntax, Memory};

use base_refusals::SyntaxKind;
use std::alloc::{AllocError, AllocFailed};

/// Why a text gives no tree of sections.
#[derive(Clone, Copy, Debug, PartialEq, Eq, Drop)]
pub enum ReadFault {
    /// The first error of the text: the number of its line from 1, where a number that 32 bits don't
    /// hold is given as the greatest that they do.
    Syntax { line: u32, kind: SyntaxKind },
    /// There was no memory.
    Memory,
}

impl ReadFault {
    pub(crate) fn at(line: u32, kind: SyntaxKind) -> ReadFault
        ensures { result ≡ Syntax line kind }
    {
        ReadFault::Syntax { line, kind }
    }
}

impl From<base_core::Memory> for ReadFault {
    ghost from_gives = { λ _ fault. fault ≡ Memory };

    fn from(_memory: base_core::Memory) -> ReadFault {
        ReadFault::Memory
    }
}

impl From<AllocError> for ReadFault {
    ghost from_gives = { λ _ fault. fault ≡ Memory };

    fn from(_error: AllocError) -> ReadFault {
        ReadFault::Memory
    }
}

impl<T: Drop> From<AllocFailed<T>> for ReadFault {
    ghost from_gives = { λ _ fault. fault ≡ Memory };

    fn from(_error: AllocFailed<T>) -> ReadFault {
        ReadFault::Memory
    }
}
