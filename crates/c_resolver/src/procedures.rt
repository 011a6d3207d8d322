// Procedures.
ghost use Rattle.std.specs.Prelude.{◌≡◌, ◌+◌, ◌++◌, ◌∷◌, [], map, false, OnOk, IfOk};
ghost use Rattle.c_syntax.specs.Outputs.{has_name};
ghost use Rattle.c_syntax.specs.Plain.{procedure_tree, stmt_tree};
ghost use Rattle.c_syntax.specs.Tree.{stmts_of_list};
ghost use Rattle.c_rules.specs.Resolve as rules;
ghost use Rattle.c_syntax.specs.Chains as chain;
ghost use Rattle.c_grammar.specs.WrittenTrees.{procedure_of, param_of};
ghost use Rattle.c_resolver.specs.Bodies.{procedure_body};
ghost use Rattle.c_rules.specs.Gives.{Gives};
ghost use Rattle.c_resolver.specs.Params.{plain_param};
ghost use Rattle.c_resolver.specs.Scopes.{known_of};

use crate::chains::stmts_chain;
use crate::known::{Known, Scope};
use crate::params::resolve_params;
use crate::roots::is_lawful_root;
use crate::stmts::resolve_stmts;
use base_core::{Memory, Text};
use c_grammar::{ReadCFault, WrittenParam, WrittenProcedure, WrittenPureParam};
use c_outputs::NameTable;
use c_rules::{on_line, unless_fault};
use c_syntax::{CKind, CType, Procedure, Stmt};
use std::alloc::{AllocError, Global};

/// The position of the struct of a procedure, whose name and parameters keep the rules.
fn resolve_head(known: &Known, p: &WrittenProcedure) -> Result<u32, CKind>
    ensures { result ≡ rules.resolve_head (known_of known.now) (procedure_of p.now) }
{
    unless_fault(!known.has_function(p.name), CKind::Name)?;
    match known.structs.position(p.of) {
        Some(of) => {
            unless_fault(is_lawful_root(p), CKind::TypeRule)?;
            Ok(of)
        }
        None => Err(CKind::Name),
    }
}

/// Parameters without their types.
fn plain_params<'a>(
    alloc: Global,
    params: &[WrittenParam<'a>],
) -> Result<Vec<WrittenPureParam<'a>>, AllocError>
    ensures { IfOk result (λ plain. plain.items ≡ map plain_param params.now) }
{
    let mut plain = Vec::new(alloc);
    for param in params {
        plain.push(WrittenPureParam {
            line: param.line,
            name: param.name,
        })?;
    }
    Ok(plain)
}

/// The names of parameters, as texts of their own, and their types.
fn typed_texts_of(alloc: Global, params: &[WrittenParam]) -> Result<Vec<(Text, CType)>, Memory>
    ensures { IfOk result (λ typed. typed.items ≡ map (λ q. (q.name.now, q.ty)) params.now) }
{
    let mut typed = Vec::new(alloc);
    for param in params {
        typed.push((Text::copy_of(alloc, param.name)?, param.ty))?;
    }
    Ok(typed)
}

/// The names of the parameters of a procedure: each differs from those before it, and from the functions that are
/// defined before.
fn resolve_names<'a>(
    alloc: Global,
    known: &Known,
    params: &[WrittenParam<'a>],
) -> Result<NameTable<'a>, ReadCFault>
    ensures checked { Gives (λ names. tt) result (rules.check_params (rules.function_names (known_of known.now))
        [] (map (λ q. (q.line, q.name)) (map param_of params.now))) }
    ensures names { IfOk result (λ names. names ≡ map (λ q. q.name) (map param_of params.now)) }
{
    let plain = plain_params(alloc, params)?;
    resolve_params(alloc, known, plain.as_slice())
}

/// What the statements of a procedure of the struct at a position stand for, whose parameters keep the rules.
fn resolve_body<'a>(
    alloc: Global,
    known: &Known<'a>,
    of: u32,
    p: &WrittenProcedure<'a>,
) -> Result<Vec<Stmt>, ReadCFault>
    ensures { Gives (λ v. stmts_of_list (map stmt_tree v.items)) result
        (procedure_body (known_of known.now) of (procedure_of p.now)) }
{
    let names = resolve_names(alloc, known, p.params.as_slice())?;
    let scope = Scope {
        known,
        of: Some(of),
        params: &names,
    };
    resolve_stmts(alloc, &scope, p.body.as_slice())
}

/// What a procedure stands for.
fn resolve_procedure<'a>(
    alloc: Global,
    known: &Known<'a>,
    p: &WrittenProcedure<'a>,
) -> Result<Procedure, ReadCFault>
    ensures resolved { Gives procedure_tree result
        (rules.resolve_procedure (known_of known.now) (procedure_of p.now)) }
    ensures new { OnOk result (has_name (rules.function_names (known_of known.now)) p.now.name.now
        ≡ false) }
    ensures named { IfOk result (λ procedure. procedure.name ≡ p.now.name.now) }
{
    let of = on_line(p.line, resolve_head(known, p))?;
    let name = Text::copy_of(alloc, p.name)?;
    let params = typed_texts_of(alloc, p.params.as_slice())?;
    let body = resolve_body(alloc, known, of, p)?;
    Ok(Procedure {
        name,
        private: p.private,
        of,
        params,
        body,
    })
}

impl<'a> Known<'a> {
    /// One more procedure, whose name is new.
    fn push_procedure(&mut self, name: &'a [u8], procedure: Procedure) -> Result<(), Memory>
        requires new { has_name (rules.function_names (known_of self.old)) name.now ≡ false }
        requires named { procedure.name ≡ name.now }
        ensures { OnOk result (let before = known_of self.old in
            let more = procedure_tree procedure in
            known_of self.new ≡ record before {
              procedures = before.procedures ++ more ∷ [];
              chains = before.chains ++ (chain.stmts_chain before.chains more.body + 1) ∷ [];
            }) }
    {
        let longest = stmts_chain(self.chains.as_slice(), procedure.body.as_slice());
        let Some(length) = longest.checked_add(1) else {
            return Err(Memory);
        };
        self.chains.push(length)?;
        self.procedures.push(name, procedure)
    }
}

/// Makes procedures known, each to those after it.
pub(crate) fn resolve_procedures<'a>(
    alloc: Global,
    known: &mut Known<'a>,
    procedures: &[WrittenProcedure<'a>],
) -> Result<(), ReadCFault>
    ensures { Gives (λ _. known_of known.new) result
        (rules.resolve_procedures (known_of known.old) (map procedure_of procedures.now)) }
{
    for p in procedures {
        let procedure = resolve_procedure(alloc, known, p)?;
        known.push_procedure(p.name, procedure)?;
    }
    Ok(())
}
