ghost use Rattle.std.specs.Prelude.{◌≡◌, OnOk};
ghost use Rattle.c_syntax.specs.Tree.{stmts_append};
ghost use Rattle.emit_nodes.specs.Code.{code_of};

use base_core::Memory;
use c_syntax::Stmt;

/// Places statements after others.
///
/// Fails only when memory runs out.
#[tactic(auto, using(crate::proofs::lemmas::Joined::code_of_append))]
pub fn push_code(code: &mut Vec<Stmt>, mut more: Vec<Stmt>) -> Result<(), Memory>
    ensures { OnOk result
        (code_of code.new.items ≡ stmts_append (code_of code.old.items) (code_of more.items)) }
{
    code.append(&mut more)?;
    Ok(())
}
