// Whole files, and whole texts.
ghost use Rattle.std.specs.Prelude.{◌≡◌, false, OnOk, OnErr, IsErrOf};
ghost use Rattle.std.specs.Io.KnownBytes.{append_known};
ghost use Rattle.base_host.specs.Faults.{HasCause, HasCauseOf};
ghost use Rattle.base_host.specs.Files.{add_file, PutsFront, WritesFront};
ghost use Rattle.base_host.specs.Reading.{source, OnlyReads};
ghost use Rattle.base_host.specs.WholeFiles.{ReadsFile};

use crate::{Failed, Host, Sink};
use std::alloc::Global;

/// Why a file wasn't read whole: a read failed, it has too many bytes, or there was no memory.
#[derive(Clone, Copy, Debug, PartialEq, Eq)]
pub enum ReadAllFault {
    /// The file can't be opened, or a read of it failed.
    Read,
    /// It has more bytes than it may have.
    TooLong,
    /// Memory ran out.
    Memory,
}

// How many bytes a read asks for.
const PIECE: usize = 4096;

/// The bytes of the first file of that name.
///
/// Fails with `Read` only where the host counted an error, with `TooLong` only where the file has more than `max`
/// bytes, and with `Memory` where memory runs out. The host's count of bytes given rises by the length of what was read.
pub fn read_all<H: Host>(
    alloc: Global,
    host: &mut H,
    name: &str,
    max: usize,
) -> Result<Vec<u8>, ReadAllFault>
    ensures reads { ReadsFile result max (H.files host.old) name.now
        (source (H.rest host.old) (H.given host.old))
        (source (H.rest host.new) (H.given host.new)) }
    ensures cause { HasCauseOf ReadAllFault.Read (H.read_faults host.old) (H.read_faults host.new)
        result }
    ensures unsure { IsErrOf result ReadAllFault.Read → H.sure host.old name.now ≡ false }
    ensures only_reads { OnlyReads H.files H.written H.write_faults host.old host.new }
{
    if host.open_read(name).is_err() {
        return Err(ReadAllFault::Read);
    }
    let mut bytes = Vec::new(alloc);
    let mut piece = [0u8; PIECE];
    loop {
        let Ok(count) = host.read(&mut piece) else {
            return Err(ReadAllFault::Read);
        };
        if count == 0 {
            return Ok(bytes);
        }
        if max - bytes.len() < count {
            return Err(ReadAllFault::TooLong);
        }
        if bytes.extend_from_slice(&piece[..count]).is_err() {
            return Err(ReadAllFault::Memory);
        }
    }
}

/// Writes a file of that name whole.
///
/// Fails only where the host counted an error. Then the file isn't there, or holds the front of the bytes.
pub fn write_all<H: Host>(host: &mut H, name: &str, bytes: &[u8]) -> Result<(), Failed>
    ensures whole { OnOk result (H.written host.new ≡ add_file (H.written host.old) name.now bytes.now) }
    ensures front { OnErr result (WritesFront (H.written host.old) (H.written host.new) name.now bytes.now) }
    ensures cause { HasCause (H.write_faults host.old) (H.write_faults host.new) result }
    ensures files { H.files host.new ≡ H.files host.old }
    ensures rest { H.rest host.new ≡ H.rest host.old }
    ensures given { H.given host.new ≡ H.given host.old }
    ensures read_faults { H.read_faults host.new ≡ H.read_faults host.old }
{
    host.open_write(name)?;
    let mut at = 0;
    while at < bytes.len() {
        at += host.write(&bytes[at..])?;
    }
    Ok(())
}

/// Writes all the bytes.
///
/// Fails only where the sink counted an error. Then the front of the bytes was written.
pub fn put_all<S: Sink>(sink: &mut S, bytes: &[u8]) -> Result<(), Failed>
    ensures whole { OnOk result (S.bytes sink.new ≡ append_known (S.bytes sink.old) bytes.now) }
    ensures front { OnErr result (PutsFront (S.bytes sink.old) (S.bytes sink.new) bytes.now) }
    ensures cause { HasCause (S.faults sink.old) (S.faults sink.new) result }
{
    let mut at = 0;
    while at < bytes.len() {
        at += sink.put(&bytes[at..])?;
    }
    Ok(())
}
