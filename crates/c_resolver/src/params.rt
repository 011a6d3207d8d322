// Parameters.
ghost use Rattle.std.specs.Prelude.{◌≡◌, ◌||◌, [], map, IfOk};
ghost use Rattle.c_syntax.specs.Outputs.{has_name};
ghost use Rattle.c_rules.specs.Resolve as rules;
ghost use Rattle.c_rules.specs.Gives.{Gives};
ghost use Rattle.c_resolver.specs.Scopes.{known_of};
ghost use Rattle.c_resolver.specs.Params.{line_and_name};

use crate::known::Known;
use base_core::{Memory, Text};
use c_grammar::{ReadCFault, WrittenPureParam};
use c_outputs::NameTable;
use c_rules::fault_at;
use c_syntax::CKind;
use std::alloc::Global;

/// Whether a function that is defined before or an earlier parameter has this name.
fn is_taken(known: &Known, names: &NameTable, name: &[u8]) -> bool
    ensures { result
        ≡ (has_name (rules.function_names (known_of known.now)) name.now
        || has_name names.now name.now) }
{
    known.has_function(name) || names.contains(name)
}

/// The names of parameters: each differs from those before it, and from the functions that are defined before.
pub(crate) fn resolve_params<'a>(
    alloc: Global,
    known: &Known,
    params: &[WrittenPureParam<'a>],
) -> Result<NameTable<'a>, ReadCFault>
    ensures checked { Gives (λ names. tt) result (rules.check_params (rules.function_names (known_of known.now))
        [] (map line_and_name params.now)) }
    ensures names { IfOk result (λ names. names ≡ map (λ q. q.name.now) params.now) }
{
    let mut names = NameTable::new(alloc);
    for param in params {
        if is_taken(known, &names, param.name) {
            return Err(ReadCFault::Refused(fault_at(param.line, CKind::Name)));
        }
        names.push(param.name)?;
    }
    Ok(names)
}

/// The names of parameters, as texts of their own.
pub(crate) fn texts_of(alloc: Global, params: &[WrittenPureParam]) -> Result<Vec<Text>, Memory>
    ensures { IfOk result (λ texts. texts.items ≡ map (λ q. q.name.now) params.now) }
{
    let mut texts = Vec::new(alloc);
    for param in params {
        texts.push(Text::copy_of(alloc, param.name)?)?;
    }
    Ok(texts)
}
