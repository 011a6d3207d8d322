// Chains of calls.
ghost use Rattle.std.specs.Prelude.{◌≡◌, map};
ghost use Rattle.c_syntax.specs.Tree.{stmts_of_list};
ghost use Rattle.c_syntax.specs.Plain.{stmt_tree};
ghost use Rattle.c_syntax.specs.Chains as rules;

use crate::calls::chain_at;
use c_syntax::Stmt;

/// The length of the longest chain of calls that begins with a call in a statement.
#[cycle(chain)]
fn stmt_chain(chains: &[u32], s: &Stmt) -> u32
    ensures { result ≡ rules.stmt_chain chains.now (stmt_tree s.now) }
{
    match s {
        Stmt::Set { .. } | Stmt::SetAt { .. } => 0,
        Stmt::If { yes, no, .. } => stmts_chain(chains, yes).max(stmts_chain(chains, no)),
        Stmt::Call { procedure, .. } => chain_at(chains, *procedure),
    }
}

/// The length of the longest chain of calls that begins with a call in statements.
#[cycle(chain)]
pub(crate) fn stmts_chain(chains: &[u32], ss: &[Stmt]) -> u32
    ensures { result ≡ rules.stmts_chain chains.now (stmts_of_list (map stmt_tree ss.now)) }
{
    let mut longest = 0;
    for s in ss {
        longest = stmt_chain(chains, s).max(longest);
    }
    longest
}
