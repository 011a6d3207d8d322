// Where the names of scopes stand.
ghost use Rattle.std.specs.Prelude.{◌≡◌, ◌<◌, [], Some, IfOk, length, slice_get, slice_index_or};
ghost use Rattle.lustre_system.specs.Functions.{function_name, param_name};
ghost use Rattle.lustre_expressions.specs.Found.{place_in};
ghost use Rattle.lustre_expressions.specs.RowNaming.{leaf_by, params_by, part_by};
ghost use Rattle.lustre_expressions.specs.Namings.{row_naming, param_naming};

use crate::names::{part_name, port_name, sample_name};
use crate::naming::Naming;
use crate::scopes::{Callees, ParamNames, RowNames};
use base_core::{Control, Memory, Port, Text};
use c_syntax::Leaf;
use emit_row_facts::{named, value_name};
use std::alloc::Global;

// The port at a place.
fn port_at(ports: &[Port], k: usize) -> Port
    requires { k < length ports.now }
    ensures { slice_get ports.now k ≡ Some result }
{
    ports[k]
}

// The name of a parameter of a system.
#[tactic(auto, using(crate::proofs::NameLaws::port_param, crate::proofs::NameLaws::trigger_is, crate::proofs::NameLaws::now_is, crate::proofs::NameLaws::no_param))]
fn param_text(alloc: Global, control: Control, ports: &[Port], k: u32) -> Result<Text, Memory>
    ensures { IfOk result (λ t. t ≡ slice_index_or (params_by control ports.now) k []) }
{
    let k = k as usize;
    if k < ports.len() {
        return port_name(alloc, control, port_at(ports, k));
    }
    match k - ports.len() {
        0 => named(alloc, "w"),
        1 => named(alloc, "now"),
        _ => named(alloc, ""),
    }
}

// The name of a leaf of a system.
fn leaf_text(alloc: Global, control: Control, ports: &[Port], leaf: Leaf) -> Result<Text, Memory>
    ensures { IfOk result (λ t. t ≡ leaf_by control ports.now leaf) }
{
    match leaf {
        Leaf::Param(k) => param_text(alloc, control, ports, k),
        Leaf::Own(c) => value_name(alloc, c),
        Leaf::Child(b, k) => sample_name(alloc, b, k),
    }
}

// The name of what a call for a row gives.
fn part_text(alloc: Global, row: Option<u32>, n: u32) -> Result<Text, Memory>
    ensures { IfOk result (λ t. t ≡ part_by row n) }
{
    match row {
        None => named(alloc, ""),
        Some(b) => part_name(alloc, b, n),
    }
}

// The name of a parameter of a function.
fn function_param<'a>(params: &'a [Text], leaf: Leaf) -> &'a [u8]
    ensures { result.now ≡ param_name params.now leaf }
{
    match leaf {
        Leaf::Param(k) => match params.get(k as usize) {
            Some(name) => name.bytes(),
            None => b"",
        },
        _ => b"",
    }
}

impl<'k, 'a> Callees<'k, 'a> {
    /// The place of a function.
    pub fn function_place(&self, function: u32) -> u32
        ensures { result ≡ place_in self.now.places.now (function_name function) }
    {
        match self.functions.get(function as usize) {
            Some(pure) => self.places.place(pure.name.bytes()),
            None => self.places.place(b""),
        }
    }
}

impl<'k, 'a, 'n, 'b> Naming for RowNames<'k, 'a, 'n, 'b> {
    ghost naming = { row_naming };

    fn leaf_place(&self, alloc: Global, leaf: Leaf) -> Result<u32, Memory> {
        let text = leaf_text(alloc, self.control, self.ports, leaf)?;
        Ok(self.places.place(text.bytes()))
    }

    fn part_place(&self, alloc: Global, n: u32) -> Result<u32, Memory> {
        let text = part_text(alloc, self.row, n)?;
        Ok(self.places.place(text.bytes()))
    }

    fn function_place(&self, function: u32) -> Result<u32, Memory> {
        Ok(self.callees.function_place(function))
    }
}

impl<'k, 'a, 'n, 'b> Naming for ParamNames<'k, 'a, 'n, 'b> {
    ghost naming = { param_naming };

    fn leaf_place(&self, _alloc: Global, leaf: Leaf) -> Result<u32, Memory> {
        Ok(self.places.place(function_param(self.params, leaf)))
    }

    fn part_place(&self, _alloc: Global, _n: u32) -> Result<u32, Memory> {
        Ok(self.places.place(b""))
    }

    fn function_place(&self, function: u32) -> Result<u32, Memory> {
        Ok(self.callees.function_place(function))
    }
}
