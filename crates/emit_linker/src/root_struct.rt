// The root's struct and parameters.
ghost use Rattle.std.specs.Prelude.{◌≡◌, ◌++◌, [], IfOk, OnOk, map};
ghost use Rattle.c_syntax.specs.PlainField.{field_tree, field_trees};
ghost use Rattle.c_syntax.specs.Plain.{param_trees};
ghost use Rattle.emit_shape.specs.Assembled as assembled;
ghost use Rattle.emit_linker.specs.Places.{trees};
ghost use Rattle.emit_linker.specs.Ports.{field_of, param_of};

use crate::codes::Codes;
use base_core::{Memory, Text};
use c_syntax::{CType, Field, FieldKind, StructDef};
use emit_row_facts::{Ported, container, inports, input_name, named, outports, output_name};
use modules_profile::Local;
use std::alloc::Global;

/// The parameters for some Inports.
fn params_for(alloc: Global, inports: &[Ported]) -> Result<Vec<(Text, CType)>, Memory>
    ensures { IfOk result (λ v. param_trees v.items ≡ map param_of inports.now) }
{
    let mut params = Vec::new(alloc);
    for inport in inports {
        params.push((input_name(alloc, inport.port)?, container(inport.out)))?;
    }
    Ok(params)
}

/// The parameters of a step of the root.
pub(crate) fn root_params(alloc: Global, root: &Local) -> Result<Vec<(Text, CType)>, Memory>
    ensures { IfOk result (λ v. param_trees v.items ≡ assembled.root_params [] root.now 0) }
{
    let inports = inports(alloc, root)?;
    params_for(alloc, &inports)
}

/// A field.
fn field(name: Text, kind: FieldKind) -> Field
    ensures { field_tree result ≡ record { name = name; kind = kind } }
{
    Field { name, kind }
}

/// Adds the fields for some Outports.
fn push_outports(alloc: Global, outports: &[Ported], list: &mut Vec<Field>) -> Result<(), Memory>
    ensures { OnOk result (field_trees list.new.items ≡ field_trees list.old.items
        ++ map field_of outports.now) }
{
    for outport in outports {
        let name = output_name(alloc, outport.port)?;
        list.push(field(name, FieldKind::Number(container(outport.out))))?;
    }
    Ok(())
}

/// The root's fields.
fn root_fields(alloc: Global, codes: &Codes<'_>, root: &Local) -> Result<Vec<Field>, Memory>
    ensures { IfOk result (λ v. field_trees v.items
        ≡ (assembled.root_structure (trees codes.now.list.now) root.now 0).fields) }
{
    let outports = outports(alloc, root)?;
    let mut list = Vec::new(alloc);
    list.push(field(named(alloc, "now")?, FieldKind::Number(CType::I32)))?;
    push_outports(alloc, &outports, &mut list)?;
    let top = FieldKind::Struct(codes.struct_position(0));
    list.push(field(named(alloc, "top")?, top))?;
    Ok(list)
}

/// The root's struct.
pub(crate) fn root_structure(
    alloc: Global,
    codes: &Codes<'_>,
    root: &Local,
) -> Result<StructDef, Memory>
    ensures { IfOk result (λ s. s ≡ assembled.root_structure (trees codes.now.list.now) root.now 0) }
{
    let fields = root_fields(alloc, codes, root)?;
    Ok(StructDef {
        name: named(alloc, "root")?,
        fields,
    })
}
