ghost use Rattle.std.specs.Prelude.{◌≡◌, [], ◌∷◌, ◌++◌, map, IfOk, OnOk};
ghost use Rattle.std.specs.List.{flat_map, enumerate_from};
ghost use Rattle.c_syntax.specs.Plain.{pure_tree, procedure_tree, program_tree};
ghost use Rattle.c_syntax.specs.Lawful.{IsLawful};
ghost use Rattle.c_rules.specs.Reading.{IsTextOf};
ghost use Rattle.c_printer.specs.Notes.{notes_seen};
ghost use Rattle.c_printer.specs.Printing.{pure_bytes, noted_struct_bytes, noted_procedure_bytes, noted_bytes};

mod body;
mod comments;
mod heads;
mod lines;
mod names;

use crate::notes::Notes;
use base_core::Memory;
use c_syntax::Program;
use std::alloc::{AllocError, Global};

/// The text of a lawful program: C99 of the subset that is read again.
/// It has one reading: the program, except for the lines, which are those of the text.
pub fn print(alloc: Global, p: &Program) -> Result<Vec<u8>, Memory>
    requires { IsLawful (program_tree p.now) }
    ensures { IfOk result (λ text. IsTextOf text.items (program_tree p.now)) }
{
    let none = Notes {
        structs: Vec::new(alloc),
        procedures: Vec::new(alloc),
    };
    print_with_notes(alloc, &none, p)
}

/// The same with notes as comments: on structs and procedures above them, on a field at its
/// declaration, at each store in it and at each call on it. A comment has at most 60 bytes of its
/// note, in which a byte that could end it or join lines is replaced. It follows its line of code
/// where both have at most 100 bytes, else it is on the line above.
pub fn print_with_notes(alloc: Global, notes: &Notes, p: &Program) -> Result<Vec<u8>, Memory>
    requires { IsLawful (program_tree p.now) }
    ensures bytes { IfOk result (λ text. text.items
        ≡ noted_bytes (notes_seen notes.now) (program_tree p.now)) }
    ensures reading { IfOk result (λ text. IsTextOf text.items (program_tree p.now)) }
{
    match text_of(alloc, notes, p) {
        Ok(text) => Ok(text),
        Err(_) => Err(Memory),
    }
}

// The text of a program, with one statement or declaration a line.
fn text_of(alloc: Global, notes: &Notes, program: &Program) -> Result<Vec<u8>, AllocError>
    ensures { IfOk result (λ text. text.items
        ≡ noted_bytes (notes_seen notes.now) (program_tree program.now)) }
{
    let mut out = Vec::new(alloc);
    put(&mut out, b"#include <stdint.h>\n")?;
    put_pures(&mut out, program)?;
    put_structs(alloc, &mut out, notes, program)?;
    put_procedures(alloc, &mut out, notes, program)?;
    Ok(out)
}

fn put_pures(out: &mut Vec<u8>, program: &Program) -> Result<(), AllocError>
    ensures { OnOk result (out.new.items
        ≡ out.old.items ++ flat_map (pure_bytes (program_tree program.now))
        (map pure_tree program.now.pure.items)) }
{
    for pure in &program.pure {
        heads::put_pure(out, program, pure)?;
    }
    Ok(())
}

fn put_structs(
    alloc: Global,
    out: &mut Vec<u8>,
    notes: &Notes,
    program: &Program,
) -> Result<(), AllocError>
    ensures { OnOk result (out.new.items ≡ out.old.items
        ++ flat_map (noted_struct_bytes (program_tree program.now) (notes_seen notes.now))
        (enumerate_from 0 program.now.structs.items)) }
{
    for (k, def) in program.structs.iter().enumerate() {
        heads::put_struct(alloc, out, program, notes, k, def)?;
    }
    Ok(())
}

fn put_procedures(
    alloc: Global,
    out: &mut Vec<u8>,
    notes: &Notes,
    program: &Program,
) -> Result<(), AllocError>
    ensures { OnOk result (out.new.items ≡ out.old.items
        ++ flat_map (noted_procedure_bytes (program_tree program.now) (notes_seen notes.now))
        (enumerate_from 0 (map procedure_tree program.now.procedures.items))) }
{
    for (k, procedure) in program.procedures.iter().enumerate() {
        heads::put_procedure(alloc, out, program, notes, k, procedure)?;
    }
    Ok(())
}

// Appends a text.
fn put(out: &mut Vec<u8>, text: &[u8]) -> Result<(), AllocError>
    ensures { OnOk result (out.new.items ≡ out.old.items ++ text.now) }
{
    out.extend_from_slice(text)
}
