// Texts, each found at its first place.
ghost use Rattle.std.specs.Prelude.{◌≡◌, ◌<◌, ℕ, List, [], IfOk, bytes_eq, length, map, slice_index_or};
ghost use Rattle.std.specs.List.{position_from};
ghost use Rattle.indexmap.specs.IndexMap.{get_by};

use base_core::Memory;
use indexmap::IndexMap;
use std::alloc::Global;

/// Texts with their first places, and the place past the end.
#[derive(Drop)]
pub struct Places<'a> {
    pub(crate) found: Box<IndexMap<&'a [u8], u32>>,
    pub(crate) past: u32,
}

/// A number as a place, where it fits.
pub fn small(number: usize) -> Result<u32, Memory>
    ensures { IfOk result (λ n. n ≡ number) }
{
    if number <= u32::MAX as usize {
        Ok(number as u32)
    } else {
        Err(Memory)
    }
}

/// The text at a place.
fn text_at<'a>(texts: &[&'a [u8]], place: usize) -> &'a [u8]
    requires { place < length texts.now }
    ensures { result.now ≡ slice_index_or (map (λ x. x.now) texts.now) place [] }
{
    texts[place]
}

/// The places of texts. The first ones come last and stay.
pub(crate) fn places_of<'a>(alloc: Global, texts: &[&'a [u8]]) -> Result<Places<'a>, Memory>
    ensures past { IfOk result (λ p. p.past ≡ length texts.now) }
    ensures found { IfOk result (λ p. (text : List ℕ) →
        get_by (λ k. bytes_eq text k.now) p.found.value
        ≡ position_from (bytes_eq text) 0 (map (λ x. x.now) texts.now)) }
{
    let past = small(texts.len())?;
    let mut found = Box::new(alloc, IndexMap::new(alloc))?;
    for place in (0..texts.len()).rev() {
        let text = text_at(texts, place);
        found.insert(text, small(place)?)?;
    }
    Ok(Places { found, past })
}
