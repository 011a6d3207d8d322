ghost use Rattle.std.specs.Prelude.{◌≡◌, ◌++◌, IfOk, OnOk};
ghost use Rattle.mdl_tree.specs.Values.{section_tree, trees_of};
ghost use Rattle.mdl_library.specs.References as plain;
ghost use Rattle.mdl_library.specs.Held.{given_seen, library_seen};

use crate::given::{Given, is_reference, is_subsystem};
use crate::library::Library;
use base_core::Memory;
use mdl_tree::Section;
use std::alloc::Global;

/// The references in the first System of a section, and in the subsystems inside it.
pub(crate) fn references_inside<'a>(
    alloc: Global,
    section: &'a Section,
) -> Result<Vec<&'a Section>, Memory>
    ensures { IfOk result (λ v. trees_of v.items
        ≡ plain.references_inside (section_tree section.now).items) }
{
    let mut references = Vec::new(alloc);
    take_inside(alloc, &mut references, section)?;
    Ok(references)
}

/// The references of a System, and of the subsystems inside it.
pub(crate) fn references_of<'a>(
    alloc: Global,
    system: &'a Section,
) -> Result<Vec<&'a Section>, Memory>
    ensures { IfOk result (λ v. trees_of v.items
        ≡ plain.references_in (section_tree system.now).items) }
{
    let mut references = Vec::new(alloc);
    take_references(alloc, &mut references, system)?;
    Ok(references)
}

/// Takes the references in the first System of a section after those taken before.
#[cycle(references)]
fn take_inside<'a>(
    alloc: Global,
    references: &mut Vec<&'a Section>,
    section: &'a Section,
) -> Result<(), Memory>
    ensures { OnOk result (trees_of references.new.items ≡ trees_of references.old.items
        ++ plain.references_inside (section_tree section.now).items) }
{
    match section.section(b"System") {
        Some(system) => {
            take_references(alloc, references, system)?;
            Ok(())
        }
        None => Ok(()),
    }
}

/// Takes the references of a System after those taken before.
#[cycle(references)]
fn take_references<'a>(
    alloc: Global,
    references: &mut Vec<&'a Section>,
    system: &'a Section,
) -> Result<(), Memory>
    ensures { OnOk result (trees_of references.new.items ≡ trees_of references.old.items
        ++ plain.references_in (section_tree system.now).items) }
{
    let blocks = system.sections_named(alloc, b"Block")?;
    for block in blocks.as_slice() {
        take_block(alloc, references, block)?;
    }
    Ok(())
}

/// Takes a block after references taken before, if it is one, or else those inside it.
#[cycle(references)]
fn take_block<'a>(
    alloc: Global,
    references: &mut Vec<&'a Section>,
    block: &'a Section,
) -> Result<(), Memory>
    ensures { OnOk result (trees_of references.new.items ≡ trees_of references.old.items
        ++ plain.references_at (section_tree block.now)) }
{
    if is_reference(block) {
        references.push(block)?;
        return Ok(());
    }
    if !is_subsystem(block) {
        return Ok(());
    }
    take_inside(alloc, references, block)
}

/// The lesser of two lines that may be there.
fn lesser(line: Option<u32>, other: Option<u32>) -> Option<u32>
    ensures { result ≡ plain.lesser line other }
{
    match (line, other) {
        (None, line) | (line, None) => line,
        (Some(line), Some(other)) => Some(line.min(other)),
    }
}

impl Library<'_> {
    /// The line of a reference, if it names no source.
    fn unnamed_line(&self, given: &Given, reference: &Section) -> Option<u32>
        ensures { result ≡ plain.unnamed_line (library_seen self.now).sources (given_seen given.now)
            (section_tree reference.now) }
    {
        match self.place_of(given, reference) {
            Some(_) => None,
            None => Some(reference.line),
        }
    }

    /// The least line of a reference among these that names no source.
    pub fn least_unnamed(&self, given: &Given, references: &[&Section]) -> Option<u32>
        ensures { result ≡ plain.least_unnamed (library_seen self.now).sources (given_seen given.now)
            (trees_of references.now) }
    {
        let mut least = None;
        for reference in references {
            least = lesser(least, self.unnamed_line(given, reference));
        }
        least
    }
}
