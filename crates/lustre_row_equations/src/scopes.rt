// A system among whose equations those of a row are.
use diagram_meaning::Resolved;
use lustre_expressions::RowNames;

/// A system of a diagram, with the names of its node.
#[derive(Drop)]
pub struct SystemScope<'d, 's, 'k, 'a, 'n, 'b> {
    /// The diagram.
    pub diagram: &'d Resolved,
    /// The row that the system is; none is the root.
    pub system: Option<u32>,
    /// The names of its node, and of no row.
    pub names: &'s RowNames<'k, 'a, 'n, 'b>,
}
