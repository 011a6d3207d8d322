ghost use Rattle.std.specs.Prelude.{◌≡◌, ◌+◌, ◌<◌, ◌≤◌, ◌==◌, IfOk, IsTrue, count_by, length};
ghost use Rattle.modules_report.specs.Following as following;
ghost use Rattle.modules_report.specs.Following.{CanComeFirst, IsFront};

use crate::lines::has;
use base_core::Memory;
use modules_profile::{Function, functions_of};
use std::alloc::Global;

// What stands for the needs of an output that no function gives yet: a set of no ports.
const NOT_KNOWN: u64 = 1 << 63;

/// Whether so many functions for so many outputs can begin so. The only error is out of memory.
#[tactic(auto, using(crate::proofs::FollowTests::all_tested, crate::proofs::FollowTests::first_tested, crate::proofs::FollowTests::none_left_out))]
pub(crate) fn can_come_first(
    alloc: Global,
    outputs: u32,
    count: usize,
    functions: &[Function],
) -> Result<bool, Memory>
    requires { outputs ≤ 32 }
    ensures can { IfOk result (λ can. IsTrue can → CanComeFirst outputs count functions.now) }
    ensures only { IfOk result (λ can. CanComeFirst outputs count functions.now → IsTrue can) }
{
    let needs = needs_of(alloc, outputs, functions)?;
    let found = functions_of(alloc, &needs)?;
    let left = left_count(&needs);
    if are_all(functions, &found, left, count) {
        return Ok(true);
    }
    Ok(are_first(functions, &found, left, count))
}

// Whether these are all functions, so many, and no output is left.
fn are_all(functions: &[Function], found: &[Function], left: usize, count: usize) -> bool
    ensures none_open { IsTrue result → left ≡ 0 }
    ensures number { IsTrue result → length functions.now ≡ count }
    ensures all { IsTrue result → found.now ≡ functions.now }
    ensures only { left ≡ 0 → length functions.now ≡ count → found.now ≡ functions.now →
        IsTrue result }
{
    left == 0 && functions.len() == count && found == functions
}

// Whether these are found first and then one for all left outputs, for which there are functions left.
fn are_first(functions: &[Function], found: &[Function], left: usize, count: usize) -> bool
    ensures some_open { IsTrue result → 0 < left }
    ensures more { IsTrue result → length functions.now < count }
    ensures enough { IsTrue result → count ≤ length functions.now + left }
    ensures first { IsTrue result → IsFront functions.now found.now }
    ensures only { 0 < left → length functions.now < count → count ≤ length functions.now + left
        → IsFront functions.now found.now → IsTrue result }
{
    match found.split_last() {
        Some((_, first)) => {
            left > 0
                && functions.len() < count
                && count - functions.len() <= left
                && first == functions
        }
        None => false,
    }
}

// How many outputs no function gives yet.
fn left_count(needs: &[u64]) -> usize
    ensures { result ≡ count_by (λ n. n == following.not_known) needs.now }
{
    needs.iter().filter(|need| **need == NOT_KNOWN).count()
}

/// The needs of each output: those of the first function that gives it.
pub(crate) fn needs_of(
    alloc: Global,
    outputs: u32,
    functions: &[Function],
) -> Result<Vec<u64>, Memory>
    requires { outputs ≤ 32 }
    ensures needs { IfOk result (λ needs. needs.items ≡ following.needs_of outputs functions.now) }
    ensures len { IfOk result (λ needs. length needs.items ≡ outputs) }
{
    let mut needs = Vec::new(alloc);
    for k in 0..outputs {
        needs.push(need_of(functions, k))?;
    }
    Ok(needs)
}

fn need_of(functions: &[Function], k: u32) -> u64
    ensures { result ≡ following.need_of functions.now k }
{
    match functions {
        [] => NOT_KNOWN,
        [f, more @ ..] => {
            if has(u64::from(f.outputs), k) {
                f.inputs
            } else {
                need_of(more, k)
            }
        }
    }
}
