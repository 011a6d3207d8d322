// Pure functions.
ghost use Rattle.std.specs.Prelude.{◌≡◌, ◌++◌, ◌∷◌, [], map, false, OnOk, IfOk};
ghost use Rattle.c_syntax.specs.Outputs.{has_name};
ghost use Rattle.c_syntax.specs.Plain.{pure_tree, expr_tree};
ghost use Rattle.c_rules.specs.Resolve as rules;
ghost use Rattle.c_grammar.specs.WrittenTrees.{pure_of};
ghost use Rattle.c_resolver.specs.Bodies.{pure_body};
ghost use Rattle.c_rules.specs.Gives.{Gives};
ghost use Rattle.c_resolver.specs.Scopes.{known_of};

use crate::exprs::resolve_expr;
use crate::known::{Known, Scope};
use crate::params::{resolve_params, texts_of};
use base_core::{Memory, Text};
use c_grammar::{ReadCFault, WrittenPure};
use c_rules::fault_at;
use c_syntax::{CKind, Expr, Pure};
use std::alloc::Global;

/// What a pure function returns, whose parameters keep the rules.
fn resolve_body<'a>(
    alloc: Global,
    known: &Known<'a>,
    p: &WrittenPure<'a>,
) -> Result<Expr, ReadCFault>
    ensures { Gives expr_tree result (pure_body (known_of known.now) (pure_of p.now)) }
{
    let names = resolve_params(alloc, known, p.params.as_slice())?;
    let scope = Scope {
        known,
        of: None,
        params: &names,
    };
    resolve_expr(alloc, &scope, &p.body)
}

/// What a pure function stands for.
fn resolve_pure<'a>(
    alloc: Global,
    known: &Known<'a>,
    p: &WrittenPure<'a>,
) -> Result<Pure, ReadCFault>
    ensures resolved { Gives pure_tree result (rules.resolve_pure (known_of known.now) (pure_of p.now)) }
    ensures new { OnOk result (has_name (rules.function_names (known_of known.now)) p.now.name.now
        ≡ false) }
    ensures named { IfOk result (λ pure. pure.name ≡ p.now.name.now) }
{
    if known.has_function(p.name) {
        return Err(ReadCFault::Refused(fault_at(p.line, CKind::Name)));
    }
    let name = Text::copy_of(alloc, p.name)?;
    let params = texts_of(alloc, p.params.as_slice())?;
    let body = resolve_body(alloc, known, p)?;
    Ok(Pure {
        name,
        params,
        body,
        line: p.return_line,
    })
}

impl<'a> Known<'a> {
    /// One more pure function, whose name is new.
    #[tactic(auto, using(c_rules::proofs::lemmas::Each::map_push))]
    fn push_pure(&mut self, name: &'a [u8], pure: Pure) -> Result<(), Memory>
        requires new { has_name (rules.function_names (known_of self.old)) name.now ≡ false }
        requires named { pure.name ≡ name.now }
        ensures { OnOk result (known_of self.new
            ≡ record (known_of self.old) {
              pures = (known_of self.old).pures ++ pure_tree pure
                  ∷ [];
            }) }
    {
        self.pures.push(name, pure)
    }
}

/// Makes pure functions known, each to those after it.
pub(crate) fn resolve_pures<'a>(
    alloc: Global,
    known: &mut Known<'a>,
    pures: &[WrittenPure<'a>],
) -> Result<(), ReadCFault>
    ensures { Gives (λ _. known_of known.new) result
        (rules.resolve_pures (known_of known.old) (map pure_of pures.now)) }
{
    for p in pures {
        let pure = resolve_pure(alloc, known, p)?;
        known.push_pure(p.name, pure)?;
    }
    Ok(())
}
