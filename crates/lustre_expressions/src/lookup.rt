// The places of texts.
ghost use Rattle.std.specs.Prelude.{◌≡◌, ℕ, List, IfOk, map};
ghost use Rattle.lustre_syntax.specs.Named.{place_of};
ghost use Rattle.lustre_expressions.specs.Found.{place_in};

use crate::places::{Places, places_of};
use base_core::{Memory, Text};
use std::alloc::Global;

impl<'a> Places<'a> {
    /// The place of a text; one that isn't there has the place past the end.
    pub fn place(&self, text: &[u8]) -> u32
        ensures { result ≡ place_in self.now text.now }
    {
        match self.found.get(text) {
            Some(place) => *place,
            None => self.past,
        }
    }
}

// The bytes of the texts of declared names.
fn bytes_of<'a>(alloc: Global, declared: &'a [(Text, bool)]) -> Result<Vec<&'a [u8]>, Memory>
    ensures { IfOk result (λ v. map (λ x. x.now) v.items ≡ map (λ x. x.0) declared.now) }
{
    let mut all = Vec::new(alloc);
    for name in declared {
        all.push(name.0.bytes())?;
    }
    Ok(all)
}

// The bytes of texts.
fn bytes_of_texts<'a>(alloc: Global, texts: &'a [Text]) -> Result<Vec<&'a [u8]>, Memory>
    ensures { IfOk result (λ v. map (λ x. x.now) v.items ≡ texts.now) }
{
    let mut all = Vec::new(alloc);
    for text in texts {
        all.push(text.bytes())?;
    }
    Ok(all)
}

/// The places of declared names.
pub fn places_of_names<'a>(
    alloc: Global,
    declared: &'a [(Text, bool)],
) -> Result<Places<'a>, Memory>
    ensures { IfOk result (λ p. (text : List ℕ) →
        place_in p text ≡ place_of (map (λ x. x.0) declared.now) text) }
{
    let texts = bytes_of(alloc, declared)?;
    places_of(alloc, texts.as_slice())
}

/// The places of texts.
pub fn places_of_texts<'a>(alloc: Global, texts: &'a [Text]) -> Result<Places<'a>, Memory>
    ensures { IfOk result (λ p. (text : List ℕ) → place_in p text ≡ place_of texts.now text) }
{
    let texts = bytes_of_texts(alloc, texts)?;
    places_of(alloc, texts.as_slice())
}
