ghost use Rattle.std.specs.Prelude.{◌≡◌, ◌↔◌, ◌+◌, ◌-◌, ◌<◌, ◌^◌, ◌++◌, ℕ, List, All, IsTrue, MatchOption, length, map};
ghost use Rattle.modules_certificate.specs.Sound.{IsDifference, IsInJustOne, IsSound, pairs_below, pairs_with, positions};

use crate::certificate::{Certificate, Difference};

/// Whether the certificate is sound for outputs with these needs. It isn't exactly where a representative is no output,
/// the differences don't stand for all pairs of representatives in order, or a bit is over 63 or doesn't lie in the
/// need of just one of the two.
pub fn check(needs: &[u64], c: &Certificate) -> bool
    ensures { IsTrue result ↔ IsSound needs.now c.now }
{
    are_outputs(needs.len(), &c.representatives)
        && are_all_pairs(c.representatives.len(), &c.differ)
        && all_differ(needs, &c.representatives, &c.differ)
}

// Whether all are below the number of outputs.
fn are_outputs(outputs: usize, representatives: &[u8]) -> bool
    ensures { IsTrue result ↔ All (λ o. o < outputs) representatives.now }
{
    representatives
        .iter()
        .all(|output| usize::from(*output) < outputs)
}

// Whether the differences stand for all pairs of so many representatives, in order.
fn are_all_pairs(count: usize, differ: &[Difference]) -> bool
    ensures { IsTrue result ↔ (map positions differ.now ≡ pairs_below count) }
{
    let mut rest = differ;
    for first in 0..count {
        match without_pairs(first, count - first - 1, rest) {
            Some(more) => rest = more,
            None => return false,
        }
    }
    rest.is_empty()
}

// The differences after those of a representative with so many others that follow it; none where they don't begin so.
fn without_pairs(first: usize, others: usize, differ: &[Difference]) -> Option<&[Difference]>
    requires { first + others < 2 ^ 64 }
    ensures { MatchOption result
        ((more : List (ℕ × ℕ)) → map positions differ.now ≡ pairs_with first others ++ more → ⊥)
        (λ more. map positions differ.now ≡ pairs_with first others ++ map positions more.now) }
{
    if differ.len() < others {
        return None;
    }
    let (own, more) = differ.split_at(others);
    if are_pairs(first, own) {
        Some(more)
    } else {
        None
    }
}

// Whether the differences stand for the pairs of a representative with those that follow it.
fn are_pairs(first: usize, differ: &[Difference]) -> bool
    requires { first + length differ.now < 2 ^ 64 }
    ensures { IsTrue result ↔ (map positions differ.now ≡ pairs_with first (length differ.now)) }
{
    for (k, d) in differ.iter().enumerate() {
        if usize::from(d.first) != first || usize::from(d.second) != first + 1 + k {
            return false;
        }
    }
    true
}

// Whether each bit lies in the need of just one of the two outputs.
fn all_differ(needs: &[u64], representatives: &[u8], differ: &[Difference]) -> bool
    requires outputs { All (λ o. o < length needs.now) representatives.now }
    requires first { All (λ (d : Difference). d.first < length representatives.now) differ.now }
    requires second { All (λ (d : Difference). d.second < length representatives.now) differ.now }
    ensures { IsTrue result ↔ All (IsDifference needs.now representatives.now) differ.now }
{
    for d in differ {
        let first = needs[usize::from(representatives[usize::from(d.first)])];
        let second = needs[usize::from(representatives[usize::from(d.second)])];
        if !is_in_just_one(first, second, d.bit) {
            return false;
        }
    }
    true
}

// Whether a bit lies in just one of two sets.
fn is_in_just_one(a: u64, b: u64, bit: u8) -> bool
    ensures { IsTrue result ↔ IsInJustOne a b bit }
{
    bit < 64 && a >> bit & 1 != b >> bit & 1
}
