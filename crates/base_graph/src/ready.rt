ghost use Rattle.std.specs.Prelude.{◌≡◌, ℕ, ◌+◌, ◌<◌, ◌≤◌, List, [], ◌∷◌, ◌⊎◌, ◌↔◌, length, IfOk, OnOk, MatchOption, Contains, slice_index};

use base_core::Memory;
use std::alloc::Global;
use std::collections::BTreeSet;

/// The nodes that need nothing.
pub fn ready_nodes(alloc: Global, unmet: &[usize], n: u32) -> Result<BTreeSet<u32>, Memory>
    requires { length unmet.now ≡ n }
    ensures { IfOk result (λ ready. (b : ℕ) →
        Contains ready.keys b ↔ ((b < n) × (slice_index unmet.now b ≡ 0))) }
{
    let mut ready = BTreeSet::new(alloc);
    for b in 0..n {
        if unmet[b as usize] == 0 {
            add(&mut ready, b)?;
        }
    }
    Ok(ready)
}

/// Makes a node one of the ready ones.
pub fn add(ready: &mut BTreeSet<u32>, b: u32) -> Result<(), Memory>
    ensures has { OnOk result ((c : ℕ) →
        Contains ready.new.keys c ↔ (Contains ready.old.keys c ⊎ (c ≡ b))) }
    ensures len { OnOk result (length ready.new.keys ≤ length ready.old.keys + 1) }
{
    ready.insert(b)?;
    Ok(())
}

/// Takes the least ready node out.
pub fn take_least(ready: &mut BTreeSet<u32>) -> Option<u32>
    ensures { MatchOption result (ready.old.keys ≡ []) (λ x. (ready.old.keys ≡ x ∷ ready.new.keys)
        × ((c : ℕ) → Contains ready.new.keys c → x < c)) }
{
    ready.pop_first()
}
