ghost use Rattle.std.specs.Prelude.{◌≡◌, [], ◌∷◌, ◌++◌, IfOk, OnOk, map, bytes_eq};
ghost use Rattle.std.specs.List.{position_from};
ghost use Rattle.c_syntax.specs.Plain.{param_trees};
ghost use Rattle.emit_shape.specs.Names as names;
ghost use Rattle.emit_system_spec.specs.Places as places;
ghost use Rattle.emit_layout.specs.Parameters as parameters;

use crate::parameter::Parameter;
use base_core::{Control, Memory, Port, Text};
use c_syntax::{CType, Leaf};
use emit_row_facts::{input_name, named};
use std::alloc::Global;
use std::marker::Model;

/// The parameters of a procedure, seen as their names and types. Leaves are found without a comparison of names: two names
/// are one only where they are for the same. There are at most 35, so that each is found in constant time.
#[derive(Drop)]
pub struct Params {
    list: Vec<(Parameter, CType)>,
}

impl Model for Params {
    ghost use Rattle.std.specs.Prelude.{List, ◌<◌, ◌^◌, length};
    ghost use Rattle.c_syntax.specs.Tree.{ParamTree};
    ghost use Rattle.emit_layout.specs.Parameters.{named_params};

    ghost Value = { List ParamTree };

    ghost view = { λ p. named_params p.list.items };

    ghost invariant = { λ p. length p.list.items < 2 ^ 32 };
}

impl Params {
    /// No parameters.
    pub fn new(alloc: Global) -> Params
        ensures { result ≡ [] }
    {
        Params {
            list: Vec::new(alloc),
        }
    }

    /// One more parameter, after the others.
    pub fn push(&mut self, parameter: Parameter, of: CType) -> Result<(), Memory>
        ensures { OnOk result (self.new ≡ self.old ++ parameters.named_param (parameter, of) ∷ []) }
    {
        if self.list.len() >= u32::MAX as usize {
            return Err(Memory);
        }
        self.list.push((parameter, of))?;
        Ok(())
    }

    /// What reads a parameter; that of one that isn't there has no meaning.
    pub fn leaf(&self, wanted: Parameter) -> Leaf
        ensures { result ≡ places.param_leaf self.now (parameters.param_name wanted) }
    {
        Leaf::Param(place_of(&self.list, wanted).unwrap_or(0) as u32)
    }

    /// What reads the tick.
    pub fn now_leaf(&self) -> Leaf
        ensures { result ≡ places.now_leaf self.now }
    {
        self.leaf(Parameter::Now)
    }

    /// What reads the input of a port.
    pub fn input_leaf(&self, port: u32) -> Leaf
        ensures { result ≡ places.param_leaf self.now (names.input_name port) }
    {
        self.leaf(Parameter::Input(port))
    }

    /// What reads the only control, or of two the enable.
    pub fn enable_leaf(&self) -> Leaf
        ensures { result ≡ places.param_leaf self.now names.control_name }
    {
        self.leaf(Parameter::FirstControl)
    }

    /// What reads the trigger of a system that is controlled so.
    pub fn trigger_leaf(&self, control: Control) -> Leaf
        ensures { result ≡ places.param_leaf self.now (names.trigger_param control) }
    {
        self.leaf(trigger_parameter(control))
    }

    /// What reads each of the parameters that a procedure wants.
    pub fn leaves_of(&self, alloc: Global, wanted: &Params) -> Result<Vec<Leaf>, Memory>
        ensures { IfOk result (λ v. v.items ≡ map (λ q. places.param_leaf self.now q.name) wanted.now) }
    {
        let mut leaves = Vec::new(alloc);
        for (parameter, _of) in &wanted.list {
            leaves.push(self.leaf(*parameter))?;
        }
        Ok(leaves)
    }

    /// The parameters by their names.
    pub fn named(&self, alloc: Global) -> Result<Vec<(Text, CType)>, Memory>
        ensures { IfOk result (λ v. param_trees v.items ≡ self.now) }
    {
        let mut named = Vec::new(alloc);
        for (parameter, of) in &self.list {
            named.push((param_name(alloc, *parameter)?, *of))?;
        }
        Ok(named)
    }
}

// The place of the first parameter in a list with the name of another.
fn place_of(list: &[(Parameter, CType)], wanted: Parameter) -> Option<usize>
    ensures { result
        ≡ position_from (λ q. bytes_eq (parameters.param_name q.0) (parameters.param_name wanted)) 0
        list.now }
{
    list.iter().position(|q| is_same(q.0, wanted))
}

// Whether two parameters have one name: they do where they are for the same.
fn is_same(one: Parameter, other: Parameter) -> bool
    ensures { result ≡ bytes_eq (parameters.param_name one) (parameters.param_name other) }
{
    match (one, other) {
        (Parameter::Input(j), Parameter::Input(k)) => is_same_input(j, k),
        (Parameter::Now, Parameter::Now) => true,
        (Parameter::FirstControl, Parameter::FirstControl) => true,
        (Parameter::SecondControl, Parameter::SecondControl) => true,
        _ => false,
    }
}

// Whether the parameters of two inputs have one name.
fn is_same_input(j: u32, k: u32) -> bool
    ensures { result ≡ bytes_eq (names.input_name j) (names.input_name k) }
{
    j == k
}

// The name of a parameter.
fn param_name(alloc: Global, parameter: Parameter) -> Result<Text, Memory>
    ensures { IfOk result (λ t. t ≡ parameters.param_name parameter) }
{
    match parameter {
        Parameter::Now => named(alloc, "now"),
        Parameter::Input(port) => input_name(alloc, port),
        Parameter::FirstControl => named(alloc, "ctl"),
        Parameter::SecondControl => named(alloc, "trg"),
    }
}

/// The parameter of the trigger of a system that is controlled so.
pub fn trigger_parameter(control: Control) -> Parameter
    ensures { result ≡ parameters.trigger_parameter control }
{
    match control {
        Control::Both { .. } => Parameter::SecondControl,
        _ => Parameter::FirstControl,
    }
}

/// The parameter of an input of a system that is controlled so.
pub fn port_parameter(control: Control, port: Port) -> Parameter
    ensures { result ≡ parameters.port_parameter control port }
{
    match port {
        Port::Number(k) => Parameter::Input(k),
        Port::Enable => Parameter::FirstControl,
        Port::Trigger => trigger_parameter(control),
    }
}
