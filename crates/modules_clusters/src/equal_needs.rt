ghost use Rattle.std.specs.Prelude.{◌≡◌, ◌<◌, ◌≤◌, ◌==◌, length, slice_index, take};
ghost use Rattle.std.specs.List.{position_from};
ghost use Rattle.modules_clusters.specs.Classes.{classes_of, class_count};

/// The class of each output, by the needs of all: outputs with equal needs are in one class, and classes are numbered
/// from 0 by the least output of each. The answer says how many classes there are.
pub fn classes(masks: &[u64], into: &mut [u32]) -> u32
    requires len { length into.old ≡ length masks.now }
    requires few { length masks.now ≤ 32 }
    ensures into { into.new ≡ classes_of masks.now }
    ensures count { result ≡ class_count masks.now }
{
    let mut count = 0;
    for k in 0..masks.len() {
        match first_equal(masks, k) {
            Some(j) => into[k] = into[j],
            None => {
                into[k] = count;
                count += 1;
            }
        }
    }
    count
}

// The first output before output `k` with the same needs.
fn first_equal(masks: &[u64], k: usize) -> Option<usize>
    requires { k < length masks.now }
    ensures { result ≡ position_from (λ mask. mask == slice_index masks.now k) 0
        (take k masks.now) }
{
    let needs = masks[k];
    masks[..k].iter().position(|mask| *mask == needs)
}
