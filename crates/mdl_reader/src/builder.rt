ghost use Rattle.std.specs.Prelude.{◌≡◌, ℕ, None, Some, false, true, OnOk, IfOk};
ghost use Rattle.mdl_tree.specs.Spelling.{End, Param};
ghost use Rattle.mdl_tree.specs.Text.{Opens, Closes, Adds, after_form, after_line};
ghost use Rattle.mdl_tree.specs.Values.{section_tree, with_item};
ghost use Rattle.mdl_reader.specs.Forms.{form_of};
ghost use Rattle.mdl_reader.specs.Building.{section_item, with_items};
ghost use Rattle.mdl_reader.specs.Builders.{statement_of, with_quoted, within_begun, IsNew, Steps, StepsOver, Finishes};

use crate::fault::ReadFault;
use crate::form::{Form, line_form};
use base_core::{Memory, Text};
use base_refusals::SyntaxKind;
use mdl_tree::{Item, Section};
use std::alloc::{AllocError, Global};
use std::mem;

/// How many sections may be open at once.
const DEPTH: usize = 128;

/// A parameter whose value may go on in the lines that follow.
#[derive(Drop)]
pub(crate) struct Parameter {
    name: Text,
    line: u32,
    value: Vec<u8>,
}

impl Parameter {
    fn new(alloc: Global, line: u32, name: &[u8], value: Vec<u8>) -> Result<Parameter, Memory>
        ensures { IfOk result (λ made. (made.name ≡ name.now) × (made.line ≡ line)
            × (made.value.items ≡ value.items)) }
    {
        let name = Text::copy_of(alloc, name)?;
        Ok(Parameter { name, line, value })
    }

    fn into_item(self) -> Item
        ensures { with_item result End ≡ Param self.name self.value.items self.line End }
    {
        Item::Param {
            name: self.name,
            value: Text::new(self.value),
            line: self.line,
        }
    }
}

/// Adds an item to a section, after those that it has.
fn push_item(section: &mut Section, item: Item) -> Result<(), AllocError>
    ensures { OnOk result (section_tree section.new
        ≡ with_items (section_tree section.old) (with_item item End)) }
{
    section.items.push(item)?;
    Ok(())
}

/// Adds a section to the one around it.
fn push_section(outer: &mut Section, section: Section) -> Result<(), AllocError>
    ensures { OnOk result (section_tree outer.new
        ≡ with_items (section_tree outer.old) (section_item (section_tree section))) }
{
    push_item(outer, Item::Section(section))
}

/// The sections of a text in the making, line by line.
#[derive(Drop)]
pub(crate) struct Builder {
    /// The innermost section that is open: the whole file where there is no other.
    current: Section,
    /// The sections around it, from the outside in.
    around: Vec<Section>,
    /// The parameter directly before the next line, if its value is quoted. It isn't among the items yet.
    quoted: Option<Parameter>,
    /// The parameter whose value in brackets isn't closed yet.
    begun: Option<Parameter>,
}

impl Builder {
    /// A builder that has read nothing.
    pub(crate) fn new(alloc: Global) -> Builder
        ensures { IsNew result }
    {
        let current = Section {
            name: Text::new(Vec::new(alloc)),
            line: 0,
            items: Vec::new(alloc),
        };
        Builder {
            current,
            around: Vec::new(alloc),
            quoted: None,
            begun: None,
        }
    }

    /// Moves the quoted parameter to the items.
    fn settle(&mut self) -> Result<(), AllocError>
        ensures quoted { OnOk result (self.new.quoted ≡ None) }
        ensures current { OnOk result (section_tree self.new.current
            ≡ with_quoted self.old.quoted (section_tree self.old.current)) }
        ensures around { self.new.around.items ≡ self.old.around.items }
        ensures begun { self.new.begun ≡ self.old.begun }
    {
        if let Some(parameter) = self.quoted.take() {
            push_item(&mut self.current, parameter.into_item())?;
        }
        Ok(())
    }

    /// Adds a parameter whose value is complete.
    fn set(&mut self, parameter: Parameter) -> Result<(), ReadFault>
        ensures { Steps self.old self.new result (statement_of parameter false) }
    {
        self.settle()?;
        push_item(&mut self.current, parameter.into_item())?;
        Ok(())
    }

    /// Takes a quoted parameter, which the strings that follow may continue.
    fn set_quoted(&mut self, parameter: Parameter) -> Result<(), ReadFault>
        ensures { Steps self.old self.new result (statement_of parameter true) }
    {
        self.settle()?;
        self.quoted = Some(parameter);
        Ok(())
    }

    /// Continues the quoted parameter.
    fn add(&mut self, line: u32, string: &[u8]) -> Result<(), ReadFault>
        ensures { Steps self.old self.new result (Adds line string.now) }
    {
        match &mut self.quoted {
            Some(parameter) => {
                parameter.value.extend_from_slice(string)?;
                Ok(())
            }
            None => Err(ReadFault::at(line, SyntaxKind::StrayString)),
        }
    }

    /// Opens a section.
    fn open(&mut self, alloc: Global, line: u32, name: &[u8]) -> Result<(), ReadFault>
        ensures { Steps self.old self.new result (Opens line name.now) }
    {
        if self.around.len() == DEPTH {
            return Err(ReadFault::at(line, SyntaxKind::DeepSections));
        }
        self.settle()?;
        let section = Section {
            name: Text::copy_of(alloc, name)?,
            line,
            items: Vec::new(alloc),
        };
        let outer = mem::replace(&mut self.current, section);
        self.around.push(outer)?;
        Ok(())
    }

    /// Closes the innermost section.
    fn close(&mut self, line: u32) -> Result<(), ReadFault>
        ensures { Steps self.old self.new result (Closes line) }
    {
        self.settle()?;
        let Some(outer) = self.around.pop() else {
            return Err(ReadFault::at(line, SyntaxKind::Brace));
        };
        let section = mem::replace(&mut self.current, outer);
        push_section(&mut self.current, section)?;
        Ok(())
    }

    /// Takes a further line of a value in brackets.
    fn continue_value(&mut self, mut parameter: Parameter, text: &[u8]) -> Result<(), ReadFault>
        requires { self.old.begun ≡ None }
        ensures { StepsOver self.old self.new result
            (after_line (within_begun (Some parameter)) 0 text.now) }
    {
        parameter.value.push(b' ')?;
        parameter.value.extend_from_slice(text)?;
        if text.contains(&b']') {
            self.set(parameter)?;
        } else {
            self.begun = Some(parameter);
        }
        Ok(())
    }

    /// Takes what a line says that is in no value in brackets.
    fn take_form(&mut self, alloc: Global, line: u32, form: Form<'_>) -> Result<(), ReadFault>
        requires { self.old.begun ≡ None }
        ensures { StepsOver self.old self.new result (after_form line (form_of line form.entry)) }
    {
        match form {
            Form::Empty => Ok(()),
            Form::Opens(name) => self.open(alloc, line, name),
            Form::Closes => self.close(line),
            Form::Plain { name, value } => {
                let value = value.to_vec(alloc)?;
                self.set(Parameter::new(alloc, line, name, value)?)
            }
            Form::Quoted { name, value } => {
                self.set_quoted(Parameter::new(alloc, line, name, value)?)
            }
            Form::Further(value) => self.add(line, value.as_slice()),
            Form::Begins { name, value } => {
                let value = value.to_vec(alloc)?;
                self.begun = Some(Parameter::new(alloc, line, name, value)?);
                Ok(())
            }
        }
    }

    /// Takes a line without the blanks at its ends.
    pub(crate) fn take_line(
        &mut self,
        alloc: Global,
        line: u32,
        text: &[u8],
    ) -> Result<(), ReadFault>
        ensures { StepsOver self.old self.new result
            (after_line (within_begun self.old.begun) line text.now) }
    {
        if let Some(parameter) = self.begun.take() {
            return self.continue_value(parameter, text);
        }
        let form = line_form(alloc, line, text)?;
        self.take_form(alloc, line, form)
    }

    /// The sections of the text, at its end, where the last line has this number.
    pub(crate) fn finish(mut self, alloc: Global, line: u32) -> Result<Section, ReadFault>
        ensures { Finishes line self result }
    {
        if let Some(parameter) = &self.begun {
            return Err(ReadFault::at(parameter.line, SyntaxKind::OpenBracket));
        }
        self.settle()?;
        if !self.around.is_empty() {
            return Err(ReadFault::at(line, SyntaxKind::Brace));
        }
        let Builder { current, .. } = self;
        let Section { items, .. } = current;
        Ok(Section {
            name: Text::new(Vec::new(alloc)),
            line: 0,
            items,
        })
    }
}
