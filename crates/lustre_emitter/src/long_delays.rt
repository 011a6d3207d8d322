// The first delay that is too long for a file of Lustre.
ghost use Rattle.std.specs.Prelude.{◌≡◌, find, nat_lt, option_map, slice_index_or};
ghost use Rattle.diagram_blocks.specs.declared.Op.TheVariants.{Nothing};
ghost use Rattle.diagram_blocks.specs.Meaning as meaning;
ghost use Rattle.diagram_meaning.specs.Rows.{row_at, row_numbers};
ghost use Rattle.diagram_meaning.specs.ResolvedTree.{diagram_of};
ghost use Rattle.lustre_right.specs.LongDelays as long;

use base_core::Place;
use diagram_blocks::Op;
use diagram_meaning::{Resolved, Row};

/// The most samples of a delay.
const SAMPLE_LIMIT: u32 = 64;

// How many samples a row remembers; none past the end.
fn samples_at(ops: &[Op], b: usize) -> u32
    ensures { result ≡ meaning.delay_length (slice_index_or ops.now b Nothing) }
{
    match ops.get(b) {
        Some(op) => op.delay_length(),
        None => 0,
    }
}

// The place of the first row whose delay is too long.
fn first_long(rows: &[Row], ops: &[Op]) -> Option<Place>
    ensures { result ≡ option_map (λ b. (row_at rows.now b).place)
        (find (λ b. nat_lt 64 (meaning.delay_length (slice_index_or ops.now b Nothing)))
        (row_numbers rows.now)) }
{
    for (b, row) in rows.iter().enumerate() {
        if samples_at(ops, b) > SAMPLE_LIMIT {
            return Some(row.place);
        }
    }
    None
}

/// The place of the first delay of more than 64 samples, if there is one.
pub fn long_delay(r: &Resolved) -> Option<Place>
    ensures { result ≡ long.long_delay (diagram_of r.now) }
{
    first_long(r.tree.table().rows.as_slice(), r.ops.as_slice())
}
