// Pure functions and procedures, renamed in place.
ghost use Rattle.std.specs.Prelude.{◌≡◌, map};
ghost use Rattle.c_syntax.specs.Plain.{procedure_tree, pure_tree};
ghost use Rattle.c_renaming.specs.Renamed.{renamed_procedure, renamed_pure};

use crate::renaming::{Renaming, rename_body, rename_expr};
use c_syntax::{Procedure, Pure};

/// Renames a pure function's body.
fn rename_pure<R: Renaming>(by: &R, f: &mut Pure)
    ensures { pure_tree f.new
        ≡ renamed_pure (R.leaf_of by.now) (R.function_of by.now) (R.procedure_of by.now) (pure_tree f.old) }
{
    rename_expr(by, &mut f.body);
}

/// Renames the bodies of pure functions.
pub fn rename_pures<R: Renaming>(by: &R, pures: &mut Vec<Pure>)
    ensures { map pure_tree pures.new.items
        ≡ map (renamed_pure (R.leaf_of by.now) (R.function_of by.now) (R.procedure_of by.now))
        (map pure_tree pures.old.items) }
{
    rename_each_pure(by, pures);
}

// Renames the bodies of pure functions, one after another.
fn rename_each_pure<R: Renaming>(by: &R, pures: &mut [Pure])
    ensures { map pure_tree pures.new
        ≡ map (renamed_pure (R.leaf_of by.now) (R.function_of by.now) (R.procedure_of by.now))
        (map pure_tree pures.old) }
{
    for f in pures.iter_mut() {
        rename_pure(by, f);
    }
}

/// Renames a procedure's body.
fn rename_procedure<R: Renaming>(by: &R, q: &mut Procedure)
    ensures { procedure_tree q.new
        ≡ renamed_procedure (R.leaf_of by.now) (R.function_of by.now) (R.procedure_of by.now)
        (procedure_tree q.old) }
{
    rename_body(by, &mut q.body);
}

/// Renames the bodies of procedures.
pub fn rename_procedures<R: Renaming>(by: &R, procedures: &mut Vec<Procedure>)
    ensures { map procedure_tree procedures.new.items
        ≡ map (renamed_procedure (R.leaf_of by.now) (R.function_of by.now) (R.procedure_of by.now))
        (map procedure_tree procedures.old.items) }
{
    rename_each_procedure(by, procedures);
}

// Renames the bodies of procedures, one after another.
fn rename_each_procedure<R: Renaming>(by: &R, procedures: &mut [Procedure])
    ensures { map procedure_tree procedures.new
        ≡ map (renamed_procedure (R.leaf_of by.now) (R.function_of by.now) (R.procedure_of by.now))
        (map procedure_tree procedures.old) }
{
    for q in procedures.iter_mut() {
        rename_procedure(by, q);
    }
}
