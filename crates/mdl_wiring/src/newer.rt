ghost use Rattle.std.specs.Prelude.{◌≡◌};
ghost use Rattle.base_refusals.specs.FirstRefusal.{as_plain, least_in};
ghost use Rattle.mdl_tree.specs.Values.{section_tree};
ghost use Rattle.mdl_wiring.specs.Lines.{parts_of_line};
ghost use Rattle.mdl_wiring.specs.Refusals as refusals;

use base_refusals::{Refusal, earlier};
use mdl_tree::{Item, Section};

/// Whether a part of a line names its ends in the newer form.
fn is_newer(part: &Section) -> bool
    ensures { result ≡ refusals.is_newer (section_tree part.now) }
{
    part.param(b"Src").is_some() || part.param(b"Dst").is_some()
}

/// The refusal of a part of a line in the newer form.
fn newer(part: &Section) -> Option<Refusal>
    ensures { as_plain result ≡ refusals.newer (section_tree part.now) }
{
    if is_newer(part) {
        Some(Refusal::Unsupported { line: part.line })
    } else {
        None
    }
}

/// The first part of a line in the newer form.
fn newer_part(line: &Section) -> Option<Refusal>
    ensures { as_plain result ≡ least_in refusals.newer (parts_of_line (section_tree line.now)) }
{
    let mut least = newer(line);
    for item in line.items.as_slice() {
        if let Item::Section(branch) = item {
            if branch.name.bytes() == b"Branch".as_slice() {
                least = earlier(least, newer_part(branch));
            }
        }
    }
    least
}

/// The refusal of the first Line or Branch of a System that names its ends by `Src` or `Dst`.
pub fn newer_line(system: &Section) -> Option<Refusal>
    ensures { as_plain result ≡ refusals.newer_lines (section_tree system.now).items }
{
    let mut least = None;
    for item in system.items.as_slice() {
        if let Item::Section(line) = item {
            if line.name.bytes() == b"Line".as_slice() {
                least = earlier(least, newer_part(line));
            }
        }
    }
    least
}
