// The tables by which codes are found.
ghost use Rattle.std.specs.Prelude.{◌≡◌, IfOk, length, map, sum_by};
ghost use Rattle.std.specs.List.{range_with_len};
ghost use Rattle.emit_shape.specs.Assembled.{first_procedure};
ghost use Rattle.emit_linker.specs.Places.{TellsCodes, place_in, trees};

use crate::lists::small;
use base_core::Memory;
use emit_shape::SystemCode;
use indexmap::IndexMap;
use std::alloc::Global;

/// Names, each with the position of the first code that has it. A box is dropped by one call.
pub(crate) type Names<'a> = Box<IndexMap<&'a [u8], u32>>;

/// The positions of codes by their names. The first ones come last and stay.
pub(crate) fn names_of<'a>(alloc: Global, list: &'a [SystemCode]) -> Result<Names<'a>, Memory>
    ensures { IfOk result (λ names. TellsCodes 0 list.now (place_in names.value)) }
{
    let mut names = Box::new(alloc, IndexMap::new(alloc))?;
    for place in (0..list.len()).rev() {
        let code = &list[place];
        names.insert(code.structure.name.bytes(), small(place)?)?;
    }
    Ok(names)
}

/// How many procedures codes have.
fn procedure_count(list: &[SystemCode]) -> Result<usize, Memory>
    ensures { IfOk result (λ n. n ≡ sum_by (λ c. length c.procedures) (trees list.now)) }
{
    let mut count = 0usize;
    for code in list {
        match count.checked_add(code.procedures.len()) {
            Some(more) => count = more,
            None => return Err(Memory),
        }
    }
    Ok(count)
}

/// The positions of the first procedures of codes, of which the last code's come first.
pub(crate) fn firsts_of(alloc: Global, list: &[SystemCode]) -> Result<Vec<u32>, Memory>
    ensures { IfOk result (λ v. v.items
        ≡ map (first_procedure (trees list.now)) (range_with_len 0 (length list.now))) }
{
    let mut later = procedure_count(list)?;
    let mut firsts = Vec::new(alloc);
    for code in list {
        let own = code.procedures.len();
        later -= own;
        firsts.push(small(later)?)?;
    }
    Ok(firsts)
}
