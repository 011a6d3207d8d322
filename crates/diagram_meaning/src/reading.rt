ghost use Rattle.std.specs.Prelude.{◌≡◌, ◌<◌, All, length};
ghost use Rattle.diagram_meaning.specs.ResolvedTree.{IsResolvedTree};
ghost use Rattle.diagram_meaning.specs.Rows.{row_at, same_system as is_same_system};

use crate::resolved::Resolved;
use crate::table::Row;

/// Whether two systems are one.
pub fn same_system(a: Option<u32>, b: Option<u32>) -> bool
    ensures { result ≡ is_same_system a b }
{
    match (a, b) {
        (None, None) => true,
        (Some(e), Some(other)) => e == other,
        _ => false,
    }
}

impl Resolved {
    /// What a resolved tree holds is what its table gives.
    pub fn is_resolved(&self)
        ensures { IsResolvedTree self.now }
    {
        let _tree = &self.tree;
    }

    /// Row `b`.
    pub fn row(&self, b: u32) -> &Row
        requires { b < length self.now.tree.table.rows }
        ensures row { result.now ≡ row_at self.now.tree.table.rows b }
        ensures wires { All (λ c. c < length self.now.tree.table.rows) result.now.inputs }
    {
        &self.tree.table().rows[b as usize]
    }
}
