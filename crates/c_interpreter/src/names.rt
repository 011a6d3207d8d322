// What is under a name.
ghost use Rattle.std.specs.Prelude.{◌≡◌, map, bytes_eq, IfOk};
ghost use Rattle.std.specs.List.{position_from};
ghost use Rattle.c_semantics.specs.Machine.{is_interface};

use c_names::is_interface;
use c_syntax::{Field, Procedure};
use std::alloc::{AllocError, Global};

pub(crate) fn procedure_named(procedures: &[Procedure], name: &[u8]) -> Option<usize>
    ensures { result ≡ position_from (λ q. bytes_eq q.name name.now) 0 procedures.now }
{
    procedures.iter().position(|q| q.name.bytes() == name)
}

pub(crate) fn field_named(fields: &[Field], name: &[u8]) -> Option<usize>
    ensures { result ≡ position_from (λ f. bytes_eq f.name name.now) 0 fields.now }
{
    fields.iter().position(|f| f.name.bytes() == name)
}

/// Whether the calls of each procedure are counted. Fails where memory runs out.
pub(crate) fn are_logged(alloc: Global, procedures: &[Procedure]) -> Result<Vec<bool>, AllocError>
    ensures { IfOk result (λ v. v.items ≡ map (λ q. is_interface q.name) procedures.now) }
{
    let mut logged = Vec::new(alloc);
    for q in procedures {
        logged.push(is_interface(alloc, q.name.bytes())?)?;
    }
    Ok(logged)
}
