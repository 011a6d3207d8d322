ghost use Rattle.std.specs.Prelude.{◌≡◌, List, IfOk};
ghost use Rattle.mdl_tree.specs.Values.{section_tree};
ghost use Rattle.mdl_library.specs.Given.{given_by};
ghost use Rattle.mdl_library.specs.Written.{most_inside};
ghost use Rattle.mdl_library.specs.Sizes as plain;
ghost use Rattle.mdl_library.specs.Held.{given_seen, library_seen};
ghost use Rattle.mdl_library.specs.HeldSizes.{capped, are_capped, block_size, size_at, beside, around};

use crate::given::{Given, is_reference, is_subsystem};
use crate::library::Library;
use base_core::Memory;
use mdl_tree::Section;
use std::alloc::Global;

/// How many blocks a System has, and how many subsystems at most are inside one another there. A number that 32 bits don't
/// hold is the greatest that they do.
#[derive(Clone, Copy, Drop)]
pub(crate) struct Size {
    pub blocks: u32,
    pub depth: u32,
}

/// The most blocks that a model has.
const MOST_BLOCKS: u32 = 20_000;

/// How many subsystems may be inside one another, and how many references.
pub(crate) const MOST_INSIDE: u32 = 32;

impl Size {
    /// The size of nothing.
    const NONE: Size = Size {
        blocks: 0,
        depth: 0,
    };

    /// The size of a block that is no subsystem.
    const PLAIN: Size = Size {
        blocks: 1,
        depth: 0,
    };

    /// That of blocks of this size beside others.
    fn beside(self, other: Size) -> Size
        ensures { result ≡ beside self other }
    {
        Size {
            blocks: self.blocks.saturating_add(other.blocks),
            depth: self.depth.max(other.depth),
        }
    }

    /// That of a subsystem with a System of this size.
    fn around(self) -> Size
        ensures { result ≡ around self }
    {
        Size {
            blocks: self.blocks.saturating_add(1),
            depth: self.depth.saturating_add(1),
        }
    }

    /// Whether a model of this size has too many blocks, or is too deep.
    fn is_too_large(self) -> bool
        ensures { (size : plain.Size) → self ≡ capped size → result ≡ plain.is_too_large size }
    {
        self.blocks > MOST_BLOCKS || self.depth > MOST_INSIDE
    }
}

/// A file whose Systems are measured, where the Systems of a library's sources have these sizes.
#[derive(Clone, Copy, Drop)]
struct Measured<'a> {
    alloc: Global,
    library: &'a Library<'a>,
    given: &'a Given<'a>,
    sizes: &'a [Size],
}

impl Measured<'_> {
    /// The size of a reference with what it stands for; one that names nothing is no subsystem.
    fn reference(&self, block: &Section) -> Size
        ensures { (sizes : List plain.Size) → self.now.sizes.now ≡ are_capped sizes →
            result ≡ capped (plain.reference_size (library_seen self.now.library.now).sources
            (given_seen self.now.given.now) sizes (section_tree block.now).items) }
    {
        match self.library.place_of(self.given, block) {
            Some(place) => self
                .sizes
                .get(place)
                .copied()
                .unwrap_or(Size::NONE)
                .around(),
            None => Size::PLAIN,
        }
    }

    /// The size of a block with all inside it.
    #[cycle(sizes)]
    fn block(&self, block: &Section) -> Result<Size, Memory>
        ensures { IfOk result (λ size. (sizes : List plain.Size) → self.now.sizes.now ≡ are_capped sizes →
            size ≡ capped (block_size (library_seen self.now.library.now).sources
            (given_seen self.now.given.now) sizes (section_tree block.now))) }
    {
        if is_reference(block) {
            return Ok(self.reference(block));
        }
        if !is_subsystem(block) {
            return Ok(Size::PLAIN);
        }
        Ok(self.inside(block)?.around())
    }

    /// The size of the first System inside a section.
    #[cycle(sizes)]
    fn inside(&self, section: &Section) -> Result<Size, Memory>
        ensures { IfOk result (λ size. (sizes : List plain.Size) → self.now.sizes.now ≡ are_capped sizes →
            size ≡ capped (plain.inner_size (library_seen self.now.library.now).sources
            (given_seen self.now.given.now) sizes (section_tree section.now).items)) }
    {
        match section.section(b"System") {
            Some(system) => self.system(system),
            None => Ok(Size::NONE),
        }
    }

    /// The size of a System.
    #[cycle(sizes)]
    fn system(&self, system: &Section) -> Result<Size, Memory>
        ensures { IfOk result (λ size. (sizes : List plain.Size) → self.now.sizes.now ≡ are_capped sizes →
            size ≡ capped (plain.system_size (library_seen self.now.library.now).sources
            (given_seen self.now.given.now) sizes (section_tree system.now).items)) }
    {
        let blocks = system.sections_named(self.alloc, b"Block")?;
        let mut size = Size::NONE;
        for block in blocks.as_slice() {
            let own = self.block(block)?;
            size = size.beside(own);
        }
        Ok(size)
    }

    /// The size of the System of the library's source at a place.
    fn source(&self, place: usize) -> Result<Size, Memory>
        ensures { IfOk result (λ size. (sizes : List plain.Size) → self.now.sizes.now ≡ are_capped sizes →
            size ≡ capped (size_at (library_seen self.now.library.now).sources
            (given_seen self.now.given.now) sizes place)) }
    {
        match self.library.source_at(place) {
            Some(source) => self.inside(source),
            None => Ok(Size::NONE),
        }
    }
}

impl Library<'_> {
    /// The sizes of the sources' Systems by those to one reference less inside one another.
    fn next_sizes(&self, alloc: Global, sizes: &[Size]) -> Result<Vec<Size>, Memory>
        ensures { IfOk result (λ next. (before : List plain.Size) → sizes.now ≡ are_capped before →
            next.items ≡ are_capped (plain.next_sizes (library_seen self.now) before)) }
    {
        let measured = Measured {
            alloc,
            library: self,
            given: &self.given,
            sizes,
        };
        let mut next = Vec::with_capacity(alloc, self.sources.len())?;
        for place in 0..self.sources.len() {
            let size = measured.source(place)?;
            next.push(size)?;
        }
        Ok(next)
    }

    /// The sizes of the sources' Systems, to so many references inside one another.
    fn source_sizes(&self, alloc: Global, depth: u32) -> Result<Vec<Size>, Memory>
        ensures { IfOk result (λ sizes. sizes.items
            ≡ are_capped (plain.source_sizes (library_seen self.now) depth)) }
    {
        if depth == 0 {
            return Ok(Vec::new(alloc));
        }
        let sizes = self.source_sizes(alloc, depth - 1)?;
        self.next_sizes(alloc, &sizes)
    }

    /// Whether a Model has too many blocks with its references written out, or is too deep.
    pub fn is_too_large(
        &self,
        alloc: Global,
        given: &Given,
        model: &Section,
    ) -> Result<bool, Memory>
        requires { given_seen given.now ≡ given_by (section_tree model.now).items }
        ensures { IfOk result (λ large. large ≡ plain.is_too_large
            (plain.size_in most_inside (library_seen self.now) (section_tree model.now).items)) }
    {
        let sizes = self.source_sizes(alloc, MOST_INSIDE)?;
        let measured = Measured {
            alloc,
            library: self,
            given,
            sizes: &sizes,
        };
        Ok(measured.inside(model)?.is_too_large())
    }
}
