ghost use Rattle.std.specs.Prelude.{◌≡◌, ◌+◌, ◌-◌, ◌<◌, ◌≤◌, ◌++◌, All, IfOk, OnOk, length};
ghost use Rattle.modules_certificate.specs.Sound.{IsCertificateFor, first_outputs, differences_from, differences_with, least_difference};

use crate::certificate::{Certificate, Difference};
use base_core::Memory;
use std::alloc::Global;

/// The certificate for outputs with these needs: the least output of each class of equal needs, and for each two of
/// them the least bit that lies in just one of their needs. It is sound.
///
/// The only error is out of memory.
pub fn make(alloc: Global, needs: &[u64]) -> Result<Certificate, Memory>
    requires { length needs.now ≤ 32 }
    ensures { IfOk result (λ c. IsCertificateFor needs.now c) }
{
    let representatives = least_outputs(alloc, needs)?;
    let differ = differences(alloc, needs, &representatives)?;
    Ok(Certificate {
        representatives,
        differ,
    })
}

// The outputs whose needs are those of no output before them.
fn least_outputs(alloc: Global, needs: &[u64]) -> Result<Vec<u8>, Memory>
    requires { length needs.now ≤ 32 }
    ensures { IfOk result (λ outputs. outputs.items ≡ first_outputs needs.now) }
{
    let mut outputs = Vec::new(alloc);
    for (output, need) in needs.iter().enumerate() {
        if !needs[..output].contains(need) {
            outputs.push(output as u8)?;
        }
    }
    Ok(outputs)
}

// For each two representatives the least bit in which they differ.
fn differences(
    alloc: Global,
    needs: &[u64],
    representatives: &[u8],
) -> Result<Vec<Difference>, Memory>
    requires few { length representatives.now ≤ 32 }
    requires outputs { All (λ o. o < length needs.now) representatives.now }
    ensures { IfOk result (λ differ. differ.items
        ≡ differences_from needs.now representatives.now 0 (length representatives.now)) }
{
    let mut differ = Vec::new(alloc);
    for first in 0..representatives.len() {
        push_differences(&mut differ, needs, representatives, first)?;
    }
    Ok(differ)
}

// Appends the differences of a representative from those that follow it.
fn push_differences(
    differ: &mut Vec<Difference>,
    needs: &[u64],
    representatives: &[u8],
    first: usize,
) -> Result<(), Memory>
    requires few { length representatives.now ≤ 32 }
    requires outputs { All (λ o. o < length needs.now) representatives.now }
    requires first { first < length representatives.now }
    ensures { OnOk result (differ.new.items ≡ differ.old.items
        ++ differences_with needs.now representatives.now first (length representatives.now
        - (first + 1))) }
{
    let own = needs[usize::from(representatives[first])];
    for second in first + 1..representatives.len() {
        let other = needs[usize::from(representatives[second])];
        differ.push(Difference {
            first: first as u8,
            second: second as u8,
            bit: least_bit(own, other),
        })?;
    }
    Ok(())
}

// The least bit that lies in just one of two sets, 64 where they are equal.
fn least_bit(a: u64, b: u64) -> u8
    ensures { result ≡ least_difference a b }
{
    (a ^ b).trailing_zeros() as u8
}
