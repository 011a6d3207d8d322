// The places of the fields of each struct of a program.
ghost use Rattle.std.specs.Prelude.{◌≡◌, [], IfOk};
ghost use Rattle.c_syntax.specs.PlainField.{field_trees};
ghost use Rattle.c_interpreter.specs.Layouts.{kind_size, slot_of, layout_of, layouts_of};

use crate::slots::{Layout, Slot};
use c_syntax::{Field, FieldKind, StructDef};
use std::alloc::{AllocError, Global};

fn kind_size(earlier: &[Layout], kind: FieldKind) -> usize
    ensures { result ≡ kind_size earlier.now kind }
{
    match kind {
        FieldKind::Number(_) => 1,
        FieldKind::Array(_, count) => count as usize,
        FieldKind::Struct(k) => match earlier.get(k as usize) {
            Some(layout) => layout.size(),
            None => 0,
        },
    }
}

fn slot_of(earlier: &[Layout], at: usize, kind: FieldKind) -> Slot
    ensures { result ≡ slot_of earlier.now at kind }
{
    match kind {
        FieldKind::Number(of) => Slot::Number { at, of },
        FieldKind::Array(of, count) => Slot::Array { at, count, of },
        FieldKind::Struct(of) => Slot::Instance {
            at,
            size: kind_size(earlier, kind),
            of,
        },
    }
}

#[tactic(auto, using(crate::proofs::LaidOut::slots_more, crate::proofs::LaidOut::end_more))]
fn layout_of(alloc: Global, earlier: &[Layout], fields: &[Field]) -> Result<Layout, AllocError>
    ensures { IfOk result (λ l. l ≡ layout_of earlier.now (field_trees fields.now)) }
{
    let mut slots = Vec::new(alloc);
    let mut at: usize = 0;
    for field in fields {
        slots.push(slot_of(earlier, at, field.kind))?;
        at = at
            .checked_add(kind_size(earlier, field.kind))
            .ok_or(AllocError)?;
    }
    Ok(Layout { size: at, slots })
}

/// The structs of a program, each of earlier ones. Fails where memory runs out, or where an instance has more numbers than
/// can be counted.
pub(crate) fn layouts_of(alloc: Global, structs: &[StructDef]) -> Result<Vec<Layout>, AllocError>
    ensures { IfOk result (λ v. v.items ≡ layouts_of [] structs.now) }
{
    let mut layouts = Vec::new(alloc);
    for s in structs {
        let layout = layout_of(alloc, &layouts, &s.fields)?;
        layouts.push(layout)?;
    }
    Ok(layouts)
}
