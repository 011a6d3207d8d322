// Errors of rules, and where they are.
ghost use Rattle.std.specs.Prelude.{◌≡◌};
ghost use Rattle.c_grammar.specs.Prefix as prefix;
ghost use Rattle.c_rules.specs.Resolve as rules;

use c_syntax::{CFault, CKind};

/// The error of a rule that is on a line.
pub fn fault_at(line: u32, kind: CKind) -> CFault
    ensures { result ≡ prefix.fault_at line kind }
{
    CFault { line, kind }
}

/// The answer of a rule that is on a line.
pub fn on_line<T>(line: u32, ruled: Result<T, CKind>) -> Result<T, CFault>
    ensures { result ≡ rules.on_line line ruled }
{
    match ruled {
        Ok(answer) => Ok(answer),
        Err(kind) => Err(fault_at(line, kind)),
    }
}

/// An error of this kind, unless a rule is kept.
pub fn unless_fault(is_kept: bool, kind: CKind) -> Result<(), CKind>
    ensures { result ≡ rules.unless_fault is_kept kind }
{
    if is_kept { Ok(()) } else { Err(kind) }
}
