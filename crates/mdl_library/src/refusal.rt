ghost use Rattle.std.specs.Prelude.{◌≡◌, Some};
ghost use Rattle.mdl_library.specs.Texts.{refusal_phrase};
ghost use Rattle.mdl_library.specs.declared.refusal.LibraryFault.TheVariants as fault;

use std::alloc::{AllocError, AllocFailed};
use std::fmt;

/// Why the references of a model can't be written out.
#[derive(Clone, Copy, Debug, PartialEq, Eq, Drop)]
pub enum LibraryRefusal {
    /// F25: the library's file has an error at this line; or it has more than 16,777,216 bytes, or no Library with a Name and
    /// a System, and the line is 0.
    BadLibrary { line: u32 },
    /// F26: the Reference at this line, in the model or in the library, names no SubSystem of the library.
    NoReference { line: u32, in_library: bool },
    /// F27: the Block of the library at this line reaches itself by references inside it.
    Circular { line: u32 },
    /// F28: with all references written out the model has more than 20,000 Blocks, or a SubSystem inside 32 others.
    Expanded,
}

/// Why a model isn't written out: it is refused, or there was no memory.
#[derive(Clone, Copy, Debug, PartialEq, Eq, Drop)]
pub enum LibraryFault {
    /// The first refusal.
    Refused(LibraryRefusal),
    /// There was no memory.
    Memory,
}

impl fmt::Display for LibraryRefusal {
    ghost output = { λ refusal. Some (refusal_phrase refusal) };

    fn fmt<W: fmt::Write>(&self, f: &mut fmt::Formatter<W>) -> fmt::Result {
        match self {
            LibraryRefusal::BadLibrary { line } => write!(f, "F25 BadLibrary line {line}"),
            LibraryRefusal::NoReference {
                line,
                in_library: false,
            } => write!(f, "F26 NoReference line {line} model"),
            LibraryRefusal::NoReference {
                line,
                in_library: true,
            } => write!(f, "F26 NoReference line {line} library"),
            LibraryRefusal::Circular { line } => write!(f, "F27 Circular line {line}"),
            LibraryRefusal::Expanded => write!(f, "F28 Expanded"),
        }
    }
}

impl From<base_core::Memory> for LibraryFault {
    ghost from_gives = { λ _ given. given ≡ fault.Memory };

    fn from(_memory: base_core::Memory) -> LibraryFault {
        LibraryFault::Memory
    }
}
