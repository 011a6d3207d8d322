ghost use Rattle.std.specs.Prelude.{◌≡◌, ℕ, List, [], ◌++◌, Some, false, true, OnOk};
ghost use Rattle.mdl_tree.specs.Text.{Statement, Faulty, string_byte, string_from, whole_string};
ghost use Rattle.mdl_reader.specs.Faults.{Answers};

use crate::fault::ReadFault;
use base_refusals::SyntaxKind;
use std::alloc::{AllocError, Global};

/// Adds what a byte after a backslash stands for.
fn push_escaped(value: &mut Vec<u8>, byte: u8) -> Result<(), AllocError>
    ensures { OnOk result (value.new.items ≡ value.old.items ++ string_byte true byte) }
{
    match byte {
        b'"' | b'\\' => value.push(byte)?,
        b'n' => value.push(b'\n')?,
        b't' => value.push(b'\t')?,
        _ => {
            value.push(b'\\')?;
            value.push(byte)?;
        }
    }
    Ok(())
}

/// The value of a quoted string, which is read from after its first quote and is to end with the
/// bytes. An error is one of this line.
pub(crate) fn read_string(alloc: Global, line: u32, bytes: &[u8]) -> Result<Vec<u8>, ReadFault>
    ensures { Answers result
        (λ value. string_from false bytes.now ≡ Some (value.items, []))
        (λ told kind. (says : List ℕ → Statement) →
        whole_string line says (string_from false bytes.now) ≡ Faulty told kind) }
{
    let mut value = Vec::new(alloc);
    let mut escaped = false;
    for (at, byte) in bytes.iter().enumerate() {
        if escaped {
            push_escaped(&mut value, *byte)?;
            escaped = false;
        } else if *byte == b'\\' {
            escaped = true;
        } else if *byte != b'"' {
            value.push(*byte)?;
        } else if at + 1 == bytes.len() {
            return Ok(value);
        } else {
            let kind = SyntaxKind::AfterString;
            return Err(ReadFault::Syntax { line, kind });
        }
    }
    Err(ReadFault::at(line, SyntaxKind::OpenString))
}
