ghost use Rattle.std.specs.Prelude.{◌≡◌, ℕ, IfOk, OnOk, IsSome, Some, [], unwrap_or};
ghost use Rattle.std.specs.Option.{option_copied};
ghost use Rattle.mdl_tree.specs.Values.{section_tree};
ghost use Rattle.mdl_tree.specs.Walks.{first_value};
ghost use Rattle.mdl_params.specs.BlockTypes.{beside};
ghost use Rattle.mdl_params.specs.Language.{default_text};
ghost use Rattle.mdl_params.specs.Defaults.{AddsKind, IsDefaults, has_second_name, by_names, written_text, parameter_text};
ghost use Rattle.mdl_params.specs.Texts.{plain_texts, plain_kinds};

use crate::block_type::BlockType;
use crate::texts::{ParamText, texts_of, value_of};
use base_core::{Memory, ParamName, Text};
use indexmap::IndexMap;
use mdl_tree::{Item, Section};
use std::alloc::Global;
use std::marker::Model;

/// The second name of an initial condition, except for that of a Delay.
const SECOND_NAME: &[u8] = b"X0";

/// The parameters of each type of block.
type Kinds = IndexMap<Vec<u8>, Vec<ParamText>>;

/// The parameters that a model gives for each type of block, seen as a list of types with the names and
/// values of their parameters.
#[derive(Drop)]
pub struct Defaults {
    kinds: Kinds,
}

impl Model for Defaults {
    ghost use Rattle.mdl_params.specs.Defaults.{DefaultTexts};
    ghost use Rattle.mdl_params.specs.Texts.{plain_kinds};

    ghost Value = { DefaultTexts };

    ghost view = { λ defaults. plain_kinds defaults.kinds.entries };
}

/// Takes the type of a block with its parameters, where it is a new one.
fn add_kind(alloc: Global, kinds: &mut Kinds, block: &Section) -> Result<(), Memory>
    ensures { OnOk result (AddsKind (plain_kinds kinds.old.entries) (plain_kinds kinds.new.entries)
        (section_tree block.now).items) }
{
    let Some(kind) = block.param(b"BlockType") else {
        return Ok(());
    };
    if kinds.contains_key(kind.bytes()) {
        return Ok(());
    }
    let texts = texts_of(alloc, block)?;
    let name = Vec::from_slice(alloc, kind.bytes())?;
    kinds.insert(name, texts)?;
    Ok(())
}

impl Defaults {
    /// What the model's first section of defaults gives: for each type of block the parameters of the
    /// first Block of that type.
    pub fn new(alloc: Global, model: &Section) -> Result<Defaults, Memory>
        ensures { IfOk result (λ defaults. IsDefaults defaults (section_tree model.now).items) }
    {
        let kinds = read_kinds(alloc, model)?;
        Ok(Defaults { kinds })
    }

    /// The text that the file gives for a parameter of a block of this type: the block's own, else that of
    /// its type.
    fn written<'a>(&'a self, block: &'a Section, kind: &[u8], name: ParamName) -> Option<&'a [u8]>
        ensures { option_copied result
            ≡ written_text self.now (section_tree block.now).items kind.now name }
    {
        match own_value(block, kind, name) {
            Some(value) => Some(value.bytes()),
            None => value_among(texts_for(&self.kinds, kind), kind, name).map(
                |value| value.bytes(),
            ),
        }
    }

    /// The text that stands for a parameter of a block of this type: what the file gives, else the default
    /// of the type. None exactly where the file gives none, and no type of this name has the parameter.
    pub fn found<'a>(&'a self, block: &'a Section, kind: &[u8], name: ParamName) -> Option<&'a [u8]>
        ensures { option_copied result
            ≡ parameter_text self.now (section_tree block.now).items kind.now name }
    {
        match self.written(block, kind, name) {
            Some(text) => Some(text),
            None => default_text(kind, name).map(|text| text.as_bytes()),
        }
    }

    /// The same of a parameter that the block's type is to have.
    pub fn param<'a>(&'a self, block: &'a Section, kind: &[u8], name: ParamName) -> &'a [u8]
        requires { IsSome (default_text kind.now name) }
        ensures { parameter_text self.now (section_tree block.now).items kind.now name
            ≡ Some result.now }
    {
        self.found(block, kind, name).unwrap()
    }
}

fn read_kinds(alloc: Global, model: &Section) -> Result<Kinds, Memory>
    ensures { IfOk result
        (λ kinds. IsDefaults (plain_kinds kinds.entries) (section_tree model.now).items) }
{
    let mut kinds = IndexMap::new(alloc);
    let Some(section) = model.section(b"BlockParameterDefaults") else {
        return Ok(kinds);
    };
    for item in section.items.as_slice() {
        if let Item::Section(block) = item {
            if block.name.bytes() == b"Block".as_slice() {
                add_kind(alloc, &mut kinds, block)?;
            }
        }
    }
    Ok(kinds)
}

/// Whether a parameter of a block of this type has a second name.
fn has_second_name(kind: &[u8], name: ParamName) -> bool
    ensures { result ≡ has_second_name kind.now name }
{
    name == ParamName::InitialCondition && kind != BlockType::Delay.name().as_bytes()
}

/// The value of a block's own parameter.
fn own_value<'a>(block: &'a Section, kind: &[u8], name: ParamName) -> Option<&'a Text>
    ensures { option_copied result
        ≡ by_names (λ wanted. first_value wanted (section_tree block.now).items) kind.now name }
{
    match block.param(name.as_str().as_bytes()) {
        None if has_second_name(kind, name) => block.param(SECOND_NAME),
        found => found,
    }
}

/// The parameters of a type of block, if it is among these.
fn texts_for<'a>(kinds: &'a Kinds, kind: &[u8]) -> &'a [ParamText]
    ensures { plain_texts result.now ≡ unwrap_or (beside kind.now (plain_kinds kinds.now.entries))
        [] }
{
    match kinds.get(kind) {
        Some(texts) => texts.as_slice(),
        None => &[],
    }
}

/// The value of a parameter of a type of block among others.
fn value_among<'a>(texts: &'a [ParamText], kind: &[u8], name: ParamName) -> Option<&'a Text>
    ensures { option_copied result
        ≡ by_names (λ wanted. beside wanted (plain_texts texts.now)) kind.now name }
{
    match value_of(texts, name.as_str().as_bytes()) {
        None if has_second_name(kind, name) => value_of(texts, SECOND_NAME),
        found => found,
    }
}

/// The default of this parameter of a type of block, if that type has it.
fn default_text(kind: &[u8], name: ParamName) -> Option<&'static str>
    ensures { option_copied result ≡ default_text kind.now name }
{
    BlockType::of(kind)?.default_of(name)
}
