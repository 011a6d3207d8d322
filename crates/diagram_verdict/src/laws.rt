ghost use Rattle.std.specs.Prelude.{ℕ, List};
ghost use Rattle.mdl_tree.specs.Spelling.{Items};
ghost use Rattle.diagram_verdict.specs.Files.{AcceptedTablesAreWellFormed, HasOneFileVerdict};
ghost use Rattle.diagram_verdict.specs.TreeVerdict.{HasOneTreeVerdict, TreeVerdictIsOfFile};
ghost use Rattle.diagram_verdict.specs.Verdict.{HasOneVerdict};

use diagram_meaning::{
    tables_have_times, time_refusal_is_one, time_refusal_is_there, times_are_one,
};
use diagram_needs::{loop_is_told_or_none, told_loop_is_one};
use mdl_table::{tree_has_one_table, tree_has_table, tree_table_is_well_formed};
use mdl_tree::tree_or_fault;

/// The table of a model whose tree isn't refused is well formed.
pub fn accepted_tables_are_well_formed()
    ensures { AcceptedTablesAreWellFormed }
{
    tree_table_is_well_formed();
}

/// Each file has one verdict and no other, for what its text and its tree are.
pub fn one_file_verdict()
    ensures { (bytes : List ℕ) → HasOneFileVerdict bytes }
{
    tree_or_fault();
    tree_has_table();
    tree_has_one_table();
}

/// Each file has one verdict and no other.
pub fn one_verdict()
    ensures { (bytes : List ℕ) → HasOneVerdict bytes }
{
    one_file_verdict();
    accepted_tables_are_well_formed();
    tables_have_times();
    times_are_one();
    time_refusal_is_there();
    time_refusal_is_one();
    loop_is_told_or_none();
    told_loop_is_one();
}

/// The verdict on the tree of a file is the verdict on the file.
pub fn tree_verdict_is_of_file()
    ensures { TreeVerdictIsOfFile }
{}

/// Each tree has one verdict and no other.
pub fn one_tree_verdict()
    ensures { (file : Items) → HasOneTreeVerdict file }
{
    tree_has_table();
    tree_has_one_table();
    tree_table_is_well_formed();
    tables_have_times();
    times_are_one();
    time_refusal_is_there();
    time_refusal_is_one();
    loop_is_told_or_none();
    told_loop_is_one();
}
