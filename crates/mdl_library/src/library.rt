ghost use Rattle.std.specs.Prelude.{◌≡◌, ℕ, ◌∷◌, ◌++◌, IfOk, OnOk, codes, map, slice_get, option_map, option_and_then};
ghost use Rattle.mdl_tree.specs.Values.{section_tree, trees_of};
ghost use Rattle.mdl_tree.specs.Walks.{first_section};
ghost use Rattle.mdl_library.specs.Library as plain;
ghost use Rattle.mdl_library.specs.Held.{given_seen, source_seen, library_seen};

use crate::given::{Given, is_subsystem};
use base_core::Memory;
use indexmap::IndexMap;
use mdl_tree::Section;
use std::alloc::Global;

/// The blocks that references can name, each by the text that names it.
pub(crate) type Sources<'a> = IndexMap<Vec<u8>, &'a Section>;

/// A library: what it gives for its blocks, its System, and the blocks directly in it that references can name.
#[derive(Drop)]
pub(crate) struct Library<'a> {
    pub given: Given<'a>,
    pub system: &'a Section,
    pub sources: Sources<'a>,
}

/// The text that names a block of this name in a library.
fn source_text(alloc: Global, library: &[u8], name: &[u8]) -> Result<Vec<u8>, Memory>
    ensures { IfOk result (λ text. text.items ≡ library.now ++ 47 ∷ plain.doubled name.now) }
{
    let mut text = Vec::from_slice(alloc, library)?;
    text.push(b'/')?;
    for &byte in name {
        text.push(byte)?;
        if byte == b'/' {
            text.push(byte)?;
        }
    }
    Ok(text)
}

/// The text that names a block of a library, if references can name it.
fn source_of(
    alloc: Global,
    library: &[u8],
    given: &Given,
    block: &Section,
) -> Result<Option<Vec<u8>>, Memory>
    ensures { IfOk result (λ text. option_map (λ t. (t.items, section_tree block.now)) text
        ≡ plain.source_of library.now (given_seen given.now) (section_tree block.now)) }
{
    if !is_subsystem(block) {
        return Ok(None);
    }
    match given.name(block) {
        Some(name) => Ok(Some(source_text(alloc, library, name)?)),
        None => Ok(None),
    }
}

/// Takes a block that this text names, if none before it has this text.
fn add_source<'a>(
    sources: &mut Sources<'a>,
    text: Vec<u8>,
    block: &'a Section,
) -> Result<(), Memory>
    ensures { OnOk result (map source_seen sources.new.entries
        ≡ plain.with_source (map source_seen sources.old.entries) (text.items, section_tree block.now)) }
{
    if sources.contains_key(text.as_slice()) {
        return Ok(());
    }
    sources.insert(text, block)?;
    Ok(())
}

/// The sources among the blocks of a library of this name.
fn sources_among<'a>(
    alloc: Global,
    library: &[u8],
    given: &Given,
    blocks: &[&'a Section],
) -> Result<Sources<'a>, Memory>
    ensures { IfOk result (λ sources. map source_seen sources.entries
        ≡ plain.sources_among library.now (given_seen given.now) (trees_of blocks.now)) }
{
    let mut sources = IndexMap::new(alloc);
    for block in blocks {
        if let Some(text) = source_of(alloc, library, given, block)? {
            add_source(&mut sources, text, block)?;
        }
    }
    Ok(sources)
}

impl<'a> Library<'a> {
    /// The library of a file: that of the first section Library at the top, if it has a Name and a System.
    pub fn of(alloc: Global, file: &'a Section) -> Result<Option<Library<'a>>, Memory>
        ensures { IfOk result (λ library. option_map library_seen library
            ≡ plain.library_of (section_tree file.now).items) }
    {
        match file.section(b"Library") {
            Some(section) => Library::within(alloc, section),
            None => Ok(None),
        }
    }

    /// The library of a section, if it has a Name and a System.
    fn within(alloc: Global, section: &'a Section) -> Result<Option<Library<'a>>, Memory>
        ensures { IfOk result (λ library. option_map library_seen library
            ≡ plain.library_in (section_tree section.now)) }
    {
        let Some(name) = section.param(b"Name") else {
            return Ok(None);
        };
        let Some(system) = section.section(b"System") else {
            return Ok(None);
        };
        let given = Given::of(alloc, section)?;
        let blocks = system.sections_named(alloc, b"Block")?;
        let sources = sources_among(alloc, name.bytes(), &given, &blocks)?;
        Ok(Some(Library {
            given,
            system,
            sources,
        }))
    }

    /// The block of the source at this place.
    pub fn source_at(&self, place: usize) -> Option<&'a Section>
        ensures { option_map (λ s. section_tree s.now) result
            ≡ option_map (λ source. source.1) (slice_get (library_seen self.now).sources place) }
    {
        self.sources.get_index(place).map(|(_, source)| *source)
    }

    /// The first System of the source at this place.
    pub fn system_at(&self, place: usize) -> Option<&'a Section>
        ensures { option_map (λ s. section_tree s.now) result ≡ option_and_then
            (λ source. first_section (codes "System") source.1.items)
            (slice_get (library_seen self.now).sources place) }
    {
        self.source_at(place)?.section(b"System")
    }

    /// The place among the sources of the one that a reference names, by what its file gives.
    pub fn place_of(&self, given: &Given, reference: &Section) -> Option<usize>
        ensures { result ≡ plain.named_by (library_seen self.now).sources (given_seen given.now)
            (section_tree reference.now).items }
    {
        self.sources.get_index_of(given.source_of(reference)?)
    }
}
