ghost use Rattle.std.specs.Prelude.{◌≡◌, ◌<◌, Contains, IfSome, bytes_eq, decimal, find, length, option_map};
ghost use Rattle.diagram_meaning.specs.Rows.{row_numbers};
ghost use Rattle.diagram_blocks.specs.Kinds.{is_subsystem as is_subsystem_kind};
ghost use Rattle.modules_profile.specs.Systems.{systems};
ghost use Rattle.tool_system_driver.specs.Words.{is_named, system_named as system_of_word};

use crate::reading::rows_of;
use diagram_blocks::Kind;
use diagram_meaning::{Resolved, Row};
use itoa::Buffer;

/// A system of a model.
#[derive(Clone, Copy, Debug, PartialEq, Eq, Drop)]
pub struct System {
    /// The subsystem row; none for the root.
    pub row: Option<u32>,
}

/// The system that a word names: `top` is the root, and the decimal number of a SubSystem row, without leading zeros, is
/// the system of that row. None exactly where the word names no system.
pub fn system_named(r: &Resolved, word: &[u8]) -> Option<System>
    ensures named { option_map (λ s. s.row) result ≡ system_of_word r.now.tree.table.rows word.now }
    ensures there { IfSome result (λ s. Contains (systems r.now.tree.table.rows) s.row) }
{
    if b"top".as_slice() == word {
        return Some(System { row: None });
    }
    match subsystem_named(rows_of(r), word) {
        Some(e) => Some(System {
            row: Some(e as u32),
        }),
        None => None,
    }
}

// The first subsystem row of which a word is the number.
fn subsystem_named(rows: &[Row], word: &[u8]) -> Option<usize>
    ensures found { result ≡ find (is_named rows.now word.now) (row_numbers rows.now) }
    ensures inside { IfSome result (λ e. e < length rows.now) }
{
    for (e, row) in rows.iter().enumerate() {
        if is_subsystem(&row.kind) && is_number(word, e) {
            return Some(e);
        }
    }
    None
}

// Whether a row is a subsystem.
fn is_subsystem(kind: &Kind) -> bool
    ensures { result ≡ is_subsystem_kind kind.now }
{
    matches!(kind, Kind::SubSystem(_))
}

// Whether a word is the decimal text of a number.
fn is_number(word: &[u8], number: usize) -> bool
    ensures { result ≡ bytes_eq (decimal number) word.now }
{
    let mut digits = Buffer::new();
    digits.format(number).as_bytes() == word
}
