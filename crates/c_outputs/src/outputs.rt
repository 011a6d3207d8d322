// The names of outputs.
ghost use Rattle.std.specs.Prelude.{◌≡◌, ℕ, List, map, codes, decimal, string_bytes, IfOk};
ghost use Rattle.std.specs.List.{list_all};
ghost use Rattle.std.specs.Char.{is_ascii_digit};
ghost use Rattle.c_syntax.specs.Outputs as outputs;
ghost use Rattle.c_syntax.specs.Outputs.{has_name};

use crate::name_table::{NameTable, table_of};
use base_core::{Memory, Text};
use std::alloc::Global;

/// The name of an output: `y` and its number.
fn output_name(alloc: Global, number: usize) -> Result<Text, Memory>
    ensures { IfOk result (λ name. name ≡ outputs.output_name number) }
{
    let name = format!(in alloc; "y{number}")?;
    Text::copy_of(alloc, name.as_bytes())
}

/// The names of the outputs, in order, where these are the names of the number fields. Fails only when memory runs out.
pub fn output_names(alloc: Global, names: &[&[u8]]) -> Result<Vec<Text>, Memory>
    ensures { IfOk result (λ found. found.items
        ≡ outputs.output_names (map (λ n. n.now) names.now)) }
{
    let table = table_of(alloc, names)?;
    outputs_among(alloc, &table, names)
}

/// Those of the names of outputs, in order, that are among names, which are these.
fn outputs_among(alloc: Global, table: &NameTable, names: &[&[u8]]) -> Result<Vec<Text>, Memory>
    requires { (n : List ℕ) →
        has_name table.now n ≡ has_name (map (λ x. x.now) names.now) n }
    ensures { IfOk result (λ found. found.items
        ≡ outputs.output_names (map (λ n. n.now) names.now)) }
{
    let mut found = Vec::new(alloc);
    for before in 0..names.len() {
        let name = output_name(alloc, before + 1)?;
        if !table.contains(name.bytes()) {
            return Ok(found);
        }
        found.push(name)?;
    }
    Ok(found)
}

/// Whether these are digits.
fn are_digits(bytes: &[u8]) -> bool
    ensures { result ≡ list_all is_ascii_digit bytes.now }
{
    bytes.iter().all(|digit| digit.is_ascii_digit())
}

/// Whether a name is `y` and digits.
pub fn looks_like_output(name: &[u8]) -> bool
    ensures { result ≡ outputs.looks_like_output name.now }
{
    let Some((first, digits)) = name.split_first() else {
        return false;
    };
    if digits.is_empty() {
        return false;
    }
    *first == b'y' && are_digits(digits)
}
