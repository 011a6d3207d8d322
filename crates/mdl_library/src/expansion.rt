ghost use Rattle.std.specs.Prelude.{◌≡◌, IfErr, IfOk, None, OnOk, codes};
ghost use Rattle.mdl_tree.specs.Values.{section_tree};
ghost use Rattle.mdl_tree.specs.Spelling.{End};
ghost use Rattle.mdl_library.specs.Items.{inside_first};
ghost use Rattle.mdl_library.specs.Given.{given_by};
ghost use Rattle.mdl_library.specs.Written.{expanded};
ghost use Rattle.mdl_library.specs.Held.{given_seen, library_seen};
ghost use Rattle.mdl_library.specs.Refusals.{IsExpanded, IsExpandedBy, IsFaultBy, IsFaultOf, refusal_by, refusal_in, refusal_with};

use crate::given::Given;
use crate::items::with_inside;
use crate::library::Library;
use crate::references::{references_inside, references_of};
use crate::refusal::{LibraryFault, LibraryRefusal};
use base_core::{Memory, Text};
use mdl_reader::{ReadFault, read_mdl};
use mdl_tree::Section;
use std::alloc::Global;

/// The most bytes that a library's file may have.
const MOST_BYTES: usize = 16_777_216;

impl Library<'_> {
    /// The first refusal of a Model that gives this, if there is one.
    fn refusal(
        &self,
        alloc: Global,
        given: &Given,
        model: &Section,
    ) -> Result<Option<LibraryRefusal>, Memory>
        requires { given_seen given.now ≡ given_by (section_tree model.now).items }
        ensures { IfOk result (λ refusal. refusal
            ≡ refusal_in (library_seen self.now) (section_tree model.now).items) }
    {
        let of_model = references_inside(alloc, model)?;
        if let Some(line) = self.least_unnamed(given, &of_model) {
            return Ok(Some(LibraryRefusal::NoReference {
                line,
                in_library: false,
            }));
        }
        let of_library = references_of(alloc, self.system)?;
        if let Some(line) = self.least_unnamed(&self.given, &of_library) {
            return Ok(Some(LibraryRefusal::NoReference {
                line,
                in_library: true,
            }));
        }
        if let Some(line) = self.circular_line(alloc)? {
            return Ok(Some(LibraryRefusal::Circular { line }));
        }
        if self.is_too_large(alloc, given, model)? {
            Ok(Some(LibraryRefusal::Expanded))
        } else {
            Ok(None)
        }
    }

    /// A file with this first Model, or with none and an empty one in its place, and its references written out.
    fn expand(
        &self,
        alloc: Global,
        file: &Section,
        model: &Section,
    ) -> Result<Section, LibraryFault>
        requires { (section_tree model.now).items ≡ inside_first (codes "Model") (section_tree file.now).items }
        ensures accepted { OnOk result (refusal_with (library_seen self.now) (section_tree file.now).items
            ≡ None) }
        ensures written { IfOk result (λ s. (section_tree s).items
            ≡ expanded (library_seen self.now) (section_tree file.now).items) }
        ensures refused { IfErr result (IsFaultBy (refusal_with (library_seen self.now)
            (section_tree file.now).items)) }
    {
        let given = Given::of(alloc, model)?;
        if let Some(refusal) = self.refusal(alloc, &given, model)? {
            return Err(LibraryFault::Refused(refusal));
        }
        let inside = self.model_written(alloc, &given, model)?;
        let items = with_inside(alloc, b"Model", inside, file)?;
        Ok(Section {
            name: Text::copy_of(alloc, file.name.bytes())?,
            line: file.line,
            items,
        })
    }
}

/// A section without items.
fn no_section(alloc: Global) -> Section
    ensures { (section_tree result).items ≡ End }
{
    Section {
        name: Text::new(Vec::new(alloc)),
        line: 0,
        items: Vec::new(alloc),
    }
}

/// A model's file with its references written out, by a library's file.
fn expand_by(alloc: Global, model: &Section, library: &Section) -> Result<Section, LibraryFault>
    ensures written { IfOk result (λ s. IsExpandedBy (section_tree library.now).items
        (section_tree model.now).items (section_tree s).items) }
    ensures refused { IfErr result (IsFaultBy (refusal_by (section_tree library.now).items
        (section_tree model.now).items)) }
{
    let Some(library) = Library::of(alloc, library)? else {
        return Err(LibraryFault::Refused(LibraryRefusal::BadLibrary { line: 0 }));
    };
    match model.section(b"Model") {
        Some(inside) => library.expand(alloc, model, inside),
        None => library.expand(alloc, model, &no_section(alloc)),
    }
}

/// A model's file with its references written out, by the text of a library (MDL, as the Simulink reference describes it).
///
/// `Refused` comes exactly where they can't be, with the first refusal: for the library's file, a reference that names
/// nothing, a block of the library that reaches itself, and then for how many blocks the model would have, or how deep they
/// would be. Memory is linear in the files and in what is written; so is time, but for a library with a block that reaches
/// itself.
pub fn expand(alloc: Global, model: &Section, library: &[u8]) -> Result<Section, LibraryFault>
    ensures written { IfOk result (λ s. IsExpanded (section_tree model.now).items library.now
        (section_tree s).items) }
    ensures refused { IfErr result (IsFaultOf (section_tree model.now).items library.now) }
{
    if library.len() > MOST_BYTES {
        return Err(LibraryFault::Refused(LibraryRefusal::BadLibrary { line: 0 }));
    }
    match read_mdl(alloc, library) {
        Ok(file) => expand_by(alloc, model, &file),
        Err(ReadFault::Syntax { line, .. }) => {
            Err(LibraryFault::Refused(LibraryRefusal::BadLibrary { line }))
        }
        Err(ReadFault::Memory) => Err(LibraryFault::Memory),
    }
}
