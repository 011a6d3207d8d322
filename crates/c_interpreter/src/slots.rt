// Where the numbers of an instance are.
ghost use Rattle.std.specs.Prelude.{◌≡◌, ℤ, List, drop, pos, replicate, slice_get};
ghost use Rattle.base_core.specs.Numbers.{int_at};
ghost use Rattle.c_interpreter.specs.Slots.{layout_at, number_in, number_under, items_in};
ghost use Rattle.c_interpreter.specs.States.{filled_items};

use c_syntax::CType;
use std::marker::Model;

/// The place of a field in the numbers of its instance: a number of a type, so many items of one, or so many numbers of an
/// instance of a struct.
#[derive(Clone, Copy, Drop)]
pub(crate) enum Slot {
    Number { at: usize, of: CType },
    Array { at: usize, count: u32, of: CType },
    Instance { at: usize, size: usize, of: u32 },
}

/// A struct: how many numbers an instance has, and the places of its fields.
#[derive(Drop)]
pub(crate) struct Layout {
    pub(crate) size: usize,
    pub(crate) slots: Vec<Slot>,
}

impl Model for Layout {
    ghost use Rattle.c_interpreter.specs.Slots.{StructLayout};

    ghost Value = { StructLayout };

    ghost view = { λ s. record { size = s.size; slots = s.slots.items } };
}

impl Layout {
    /// How many numbers an instance has.
    pub(crate) fn size(&self) -> usize
        ensures { result ≡ self.now.size }
    {
        self.size
    }

    /// The places of the fields.
    pub(crate) fn slots(&self) -> &[Slot]
        ensures { result.now ≡ self.now.slots }
    {
        &self.slots
    }
}

/// The number that a field holds, and 0 where it holds none.
pub(crate) fn number_in(numbers: &[i64], slot: Option<Slot>) -> i64
    ensures { result ≡ number_in numbers.now slot }
{
    match slot {
        Some(Slot::Number { at, .. }) => numbers.get(at).copied().unwrap_or(0),
        _ => 0,
    }
}

/// The place of the field at a position.
pub(crate) fn slot_in(slots: &[Slot], field: usize) -> Option<Slot>
    ensures { result ≡ slice_get slots.now field }
{
    slots.get(field).copied()
}

/// The places of the fields of the struct at a position.
#[inline(always)]
pub(crate) fn slots_at(layouts: &[Layout], of: u32) -> &[Slot]
    ensures { result.now ≡ (layout_at layouts.now of).slots }
{
    match layouts.get(of as usize) {
        Some(layout) => layout.slots(),
        None => &[],
    }
}

/// The numbers from a place on.
#[inline(always)]
pub(crate) fn numbers_from(numbers: &[i64], at: usize) -> &[i64]
    ensures { result.now ≡ drop at numbers.now }
{
    if at <= numbers.len() {
        &numbers[at..]
    } else {
        &[]
    }
}

/// The number that the field at a position holds, and 0 where it holds none.
#[inline(always)]
pub(crate) fn own_number(slots: &[Slot], numbers: &[i64], field: u32) -> i64
    ensures { result ≡ number_in numbers.now (slice_get slots.now field) }
{
    match slots.get(field as usize) {
        Some(Slot::Number { at, .. }) => numbers.get(*at).copied().unwrap_or(0),
        _ => 0,
    }
}

/// The number that a field of a field holds, and 0 where it holds none.
#[inline(always)]
pub(crate) fn number_under(
    layouts: &[Layout],
    slots: &[Slot],
    numbers: &[i64],
    outer: u32,
    field: u32,
) -> i64
    ensures { result ≡ number_under layouts.now numbers.now (slice_get slots.now outer) field }
{
    match slots.get(outer as usize) {
        Some(Slot::Instance { at, of, .. }) => {
            own_number(slots_at(layouts, *of), numbers_from(numbers, *at), field)
        }
        _ => 0,
    }
}

/// Where the array at a position begins, and how many items it has; none where the field is no array.
#[inline(always)]
pub(crate) fn own_array(slots: &[Slot], field: u32) -> (usize, u32)
    ensures { (numbers : List ℤ) → items_in numbers (slice_get slots.now field)
        ≡ filled_items (replicate result.1 (pos 0)) (drop result.0 numbers) }
{
    match slots.get(field as usize) {
        Some(Slot::Array { at, count, .. }) => (*at, *count),
        _ => (0, 0),
    }
}

/// The number so many places after another.
#[inline(always)]
pub(crate) fn number_behind(numbers: &[i64], at: usize, place: usize) -> i64
    ensures { result ≡ int_at (drop at numbers.now) place }
{
    numbers_from(numbers, at).get(place).copied().unwrap_or(0)
}
