// The names of a code's children.
ghost use Rattle.std.specs.Prelude.{◌≡◌, ◌∷◌, List, IfOk, filter_map, length, map};
ghost use Rattle.c_syntax.specs.Tree.{FieldTree};
ghost use Rattle.c_syntax.specs.PlainField.{field_tree, field_trees};
ghost use Rattle.emit_shape.specs.SystemTree.{system_tree};
ghost use Rattle.emit_shape.specs.Assembled as assembled;
ghost use Rattle.emit_linker.specs.Children.{children_at, children_among, told_names};

use crate::parts::fields_of;
use base_core::Memory;
use c_syntax::{Field, FieldKind};
use emit_shape::SystemCode;
use std::alloc::Global;

/// The names of the children of a code by their positions, found in time linear in its fields.
pub(crate) fn child_names<'a>(alloc: Global, code: &'a SystemCode) -> Result<Vec<&'a [u8]>, Memory>
    ensures { IfOk result (λ v. map (λ n. n.now) v.items
        ≡ assembled.child_names (system_tree code.now)) }
{
    names_among(alloc, fields_of(code))
}

/// The names of the children among fields.
fn names_among<'a>(alloc: Global, fields: &'a [Field]) -> Result<Vec<&'a [u8]>, Memory>
    ensures { IfOk result (λ v. map (λ n. n.now) v.items
        ≡ children_among (field_trees fields.now)) }
{
    let table = name_table(alloc, fields)?;
    told(alloc, &table)
}

/// By position, the name of the first field that is the child there. The first ones come last and stay.
fn name_table<'a>(alloc: Global, fields: &'a [Field]) -> Result<Vec<Option<&'a [u8]>>, Memory>
    ensures { IfOk result (λ v. told_names v.items
        ≡ children_at (field_trees fields.now) (length fields.now)) }
{
    let mut table = vec![in alloc; None; fields.len()]?;
    for place in (0..fields.len()).rev() {
        tell(&fields[place], &mut table);
    }
    Ok(table)
}

/// Notes the name of a field at the position of the child that it is.
fn tell<'a>(field: &'a Field, table: &mut [Option<&'a [u8]>])
    ensures length { length table.new ≡ length table.old }
    ensures names { (fields : List FieldTree) →
        told_names table.old ≡ children_at fields (length table.old) →
        told_names table.new ≡ children_at (field_tree field.now ∷ fields) (length table.old) }
{
    if let FieldKind::Struct(k) = field.kind {
        let k = k as usize;
        if k < table.len() {
            table[k] = Some(field.name.bytes());
        }
    }
}

/// The names that are there.
fn told<'a>(alloc: Global, table: &[Option<&'a [u8]>]) -> Result<Vec<&'a [u8]>, Memory>
    ensures { IfOk result (λ v. map (λ n. n.now) v.items
        ≡ filter_map (λ name. name) (told_names table.now)) }
{
    let mut names = Vec::new(alloc);
    for entry in table {
        if let Some(name) = entry {
            names.push(*name)?;
        }
    }
    Ok(names)
}
