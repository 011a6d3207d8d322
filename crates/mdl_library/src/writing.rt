ghost use Rattle.std.specs.Prelude.{◌≡◌, IfOk, OnOk, [], option_copied};
ghost use Rattle.std.specs.Option.{option_map_or};
ghost use Rattle.mdl_params.specs.BlockTypes.{block_type_of};
ghost use Rattle.mdl_params.specs.Language.{parameters, plain_parameters};
ghost use Rattle.mdl_tree.specs.Spelling as spelling;
ghost use Rattle.mdl_tree.specs.Spelling.{append_items};
ghost use Rattle.mdl_tree.specs.Values.{section_tree, items_of, item_alone};
ghost use Rattle.mdl_library.specs.Given.{given_by};
ghost use Rattle.mdl_library.specs.Items.{set_on};
ghost use Rattle.mdl_library.specs.Written as plain;
ghost use Rattle.mdl_library.specs.Held.{given_seen, library_seen};
ghost use Rattle.mdl_library.specs.HeldItems.{items_left};
ghost use Rattle.mdl_library.specs.HeldWriting.{system_of, block_of, copied_of, inner_of, reference_of};

use crate::given::{Given, is_reference, is_subsystem};
use crate::items::{moved_item, moved_items, push_titled, section_of, with_inside};
use crate::library::Library;
use crate::sizes::MOST_INSIDE;
use base_core::{Memory, ParamName};
use mdl_params::BlockType;
use mdl_tree::{Item, Section};
use std::alloc::Global;

/// The parameters that a block's type has, but its name; none where no type of its name is known.
fn parameters_of(kind: &[u8]) -> &'static [(ParamName, &'static str)]
    ensures { plain_parameters result.now ≡ option_map_or parameters (block_type_of kind.now) [] }
{
    match BlockType::of(kind) {
        Some(block_type) => block_type.parameters(),
        None => &[],
    }
}

impl Given<'_> {
    /// Adds the parameters of a block on a line.
    fn settle<'b>(
        &'b self,
        alloc: Global,
        items: &mut Vec<Item>,
        line: u32,
        block: &'b Section,
    ) -> Result<(), Memory>
        ensures { OnOk result (items_of items.new.items ≡ append_items (items_of items.old.items)
            (set_on line (plain.settled (given_seen self.now) (section_tree block.now).items)
            spelling.End)) }
    {
        let Some(kind) = block.param(b"BlockType") else {
            return Ok(());
        };
        for (parameter, _) in parameters_of(kind.bytes()) {
            let text = self.parameter(block, kind.bytes(), *parameter);
            push_titled(alloc, items, line, parameter.as_str().as_bytes(), text)?;
        }
        Ok(())
    }
}

/// Adds a System on a line, if there is one.
fn push_system(
    alloc: Global,
    items: &mut Vec<Item>,
    line: u32,
    system: Option<Vec<Item>>,
) -> Result<(), Memory>
    ensures { OnOk result (items_of items.new.items ≡ append_items (items_of items.old.items)
        (plain.inside_on line (items_left system))) }
{
    match system {
        Some(system) => {
            items.push(section_of(alloc, b"System", line, system)?)?;
            Ok(())
        }
        None => Ok(()),
    }
}

/// The items of a block of the model, with these in its System, if it is a subsystem with one.
fn kept(alloc: Global, block: &Section, system: Option<Vec<Item>>) -> Result<Vec<Item>, Memory>
    ensures { IfOk result (λ items. items_of items.items
        ≡ plain.kept (section_tree block.now).items (items_left system)) }
{
    match system {
        Some(system) => with_inside(alloc, b"System", system, block),
        None => moved_items(alloc, None, block),
    }
}

/// How a block of a copy begins: on which line, with which type and name.
#[derive(Clone, Copy, Drop)]
struct Heading<'a> {
    line: u32,
    kind: Option<&'a [u8]>,
    name: Option<&'a [u8]>,
}

impl Heading<'_> {
    /// The items of a block that begins so, with the parameters that stand for another block, and with this System.
    fn block(
        &self,
        alloc: Global,
        given: &Given,
        block: &Section,
        system: Option<Vec<Item>>,
    ) -> Result<Vec<Item>, Memory>
        ensures { IfOk result (λ items. items_of items.items ≡ plain.block_on self.now.line
            (option_copied self.now.kind) (option_copied self.now.name) (given_seen given.now)
            (section_tree block.now).items (plain.inside_on self.now.line
            (items_left system))) }
    {
        let mut items = Vec::new(alloc);
        push_titled(alloc, &mut items, self.line, b"BlockType", self.kind)?;
        push_titled(alloc, &mut items, self.line, b"Name", self.name)?;
        given.settle(alloc, &mut items, self.line, block)?;
        push_system(alloc, &mut items, self.line, system)?;
        Ok(items)
    }
}

/// A file whose Systems are written out, to so many references inside one another: in a copy on a line, or in the model itself.
#[derive(Clone, Copy, Drop)]
struct Writing<'a> {
    library: &'a Library<'a>,
    given: &'a Given<'a>,
    depth: u32,
    copy: Option<u32>,
}

impl<'a> Writing<'a> {
    /// The items of a System.
    #[cycle(writing)]
    fn system(&self, alloc: Global, system: &Section) -> Result<Vec<Item>, Memory>
        ensures { IfOk result (λ items. items_of items.items
            ≡ system_of self.now (section_tree system.now).items) }
    {
        let mut items = Vec::with_capacity(alloc, system.items.len())?;
        for item in system.items.as_slice() {
            items.push(self.item(alloc, item)?)?;
        }
        Ok(items)
    }

    /// An item of a System.
    #[cycle(writing)]
    fn item(&self, alloc: Global, item: &Item) -> Result<Item, Memory>
        ensures { IfOk result (λ written. item_alone written
            ≡ system_of self.now (item_alone item.now)) }
    {
        match item.section_named(b"Block") {
            Some(block) => {
                let items = self.block(alloc, block)?;
                section_of(
                    alloc,
                    block.name.bytes(),
                    self.copy.unwrap_or(block.line),
                    items,
                )
            }
            None => moved_item(alloc, self.copy, item),
        }
    }

    /// The items of a block.
    #[cycle(writing)]
    fn block(&self, alloc: Global, block: &Section) -> Result<Vec<Item>, Memory>
        ensures { IfOk result (λ items. items_of items.items
            ≡ block_of self.now (section_tree block.now)) }
    {
        if is_reference(block) {
            return self.reference(alloc, block);
        }
        let system = self.inner(alloc, block)?;
        match self.copy {
            Some(line) => self.copied(alloc, line, block, system),
            None => kept(alloc, block, system),
        }
    }

    /// The items of a block of a copy on a line, with this System.
    fn copied(
        &self,
        alloc: Global,
        line: u32,
        block: &Section,
        system: Option<Vec<Item>>,
    ) -> Result<Vec<Item>, Memory>
        ensures { IfOk result (λ items. items_of items.items ≡ copied_of self.now line
            (section_tree block.now) (items_left system)) }
    {
        let heading = Heading {
            line,
            kind: block.param(b"BlockType").map(|kind| kind.bytes()),
            name: self.given.name(block),
        };
        heading.block(alloc, self.given, block, system)
    }

    /// The items of the first System of a subsystem, if it has one.
    #[cycle(writing)]
    fn inner(&self, alloc: Global, block: &Section) -> Result<Option<Vec<Item>>, Memory>
        ensures { IfOk result (λ items. items_left items
            ≡ inner_of self.now (section_tree block.now)) }
    {
        if !is_subsystem(block) {
            return Ok(None);
        }
        match block.section(b"System") {
            Some(system) => Ok(Some(self.system(alloc, system)?)),
            None => Ok(None),
        }
    }

    /// The items of a reference.
    #[cycle(writing)]
    fn reference(&self, alloc: Global, block: &Section) -> Result<Vec<Item>, Memory>
        ensures { IfOk result (λ items. items_of items.items
            ≡ reference_of self.now (section_tree block.now)) }
    {
        let Some(place) = self.library.place_of(self.given, block) else {
            return moved_items(alloc, self.copy, block);
        };
        let Some(source) = self.library.source_at(place) else {
            return moved_items(alloc, self.copy, block);
        };
        let heading = Heading {
            line: self.copy.unwrap_or(block.line),
            kind: Some(BlockType::SubSystem.name().as_bytes()),
            name: self.given.name(block),
        };
        let system = self.source(alloc, heading.line, place)?;
        heading.block(alloc, &self.library.given, source, Some(system))
    }

    /// The items of the System of the source at a place, in a copy on a line.
    #[cycle(writing)]
    fn source(&self, alloc: Global, line: u32, place: usize) -> Result<Vec<Item>, Memory>
        ensures { IfOk result (λ items. items_of items.items
            ≡ plain.source_written (library_seen self.now.library.now) self.now.depth line place) }
    {
        if self.depth == 0 {
            return Ok(Vec::new(alloc));
        }
        let Some(system) = self.library.system_at(place) else {
            return Ok(Vec::new(alloc));
        };
        let copy = Writing {
            library: self.library,
            given: &self.library.given,
            depth: self.depth - 1,
            copy: Some(line),
        };
        copy.system(alloc, system)
    }
}

impl Library<'_> {
    /// The items of a Model, with the references of its System written out.
    pub fn model_written(
        &self,
        alloc: Global,
        given: &Given,
        model: &Section,
    ) -> Result<Vec<Item>, Memory>
        requires { given_seen given.now ≡ given_by (section_tree model.now).items }
        ensures { IfOk result (λ items. items_of items.items
            ≡ plain.model_written plain.most_inside (library_seen self.now) (section_tree model.now).items) }
    {
        let Some(system) = model.section(b"System") else {
            return moved_items(alloc, None, model);
        };
        let writing = Writing {
            library: self,
            given,
            depth: MOST_INSIDE,
            copy: None,
        };
        let system = writing.system(alloc, system)?;
        with_inside(alloc, b"System", system, model)
    }
}
