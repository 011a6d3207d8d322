ghost use Rattle.std.specs.Prelude.{◌≡◌};
ghost use Rattle.emit_notes.specs.NameUses as named;

use base_numerals::{capped_number, is_numeral};

/// What a name in code stands for.
#[derive(Clone, Copy, Drop)]
pub(crate) enum NameUse {
    /// The value of a row.
    Value(usize),
    /// What a row remembers.
    Memory(usize),
    /// The place of the oldest sample that a row remembers.
    OldestPlace(usize),
    /// How many samples a row took.
    SampleCount(usize),
    /// The system inside a row.
    System(usize),
    /// Whether a group has run.
    Group(usize),
    /// An output of the model, by its port.
    Output(usize),
    /// An input that is passed, by its port.
    Input(usize),
    /// What the trigger remembers.
    Trigger,
    /// The system of the root.
    Top,
    /// The tick.
    Tick,
    /// None of these.
    Other,
}

/// What a letter with a number stands for.
fn numbered_use(letter: u8, number: usize) -> NameUse
    ensures { result ≡ named.numbered_use letter number }
{
    match letter {
        b'v' => NameUse::Value(number),
        b'm' => NameUse::Memory(number),
        b'p' => NameUse::OldestPlace(number),
        b'n' => NameUse::SampleCount(number),
        b's' => NameUse::System(number),
        b'k' => NameUse::Group(number),
        b'y' => NameUse::Output(number),
        b'u' => NameUse::Input(number),
        _ => NameUse::Other,
    }
}

/// What a letter with these bytes after it stands for.
fn use_after(letter: u8, digits: &[u8]) -> NameUse
    ensures { result ≡ named.use_after letter digits.now }
{
    if is_numeral(digits) {
        numbered_use(letter, capped_number(digits, u64::MAX) as usize)
    } else {
        NameUse::Other
    }
}

/// What a name stands for that is no word.
fn use_by_letter(name: &[u8]) -> NameUse
    ensures { result ≡ named.use_by_letter name.now }
{
    match name {
        [letter, digits @ ..] => use_after(*letter, digits),
        [] => NameUse::Other,
    }
}

/// What a name of a struct, a field or a parameter stands for.
pub(crate) fn use_of(name: &[u8]) -> NameUse
    ensures { result ≡ named.use_of name.now }
{
    if name == b"w".as_slice() {
        NameUse::Trigger
    } else if name == b"top".as_slice() {
        NameUse::Top
    } else if name == b"now".as_slice() {
        NameUse::Tick
    } else {
        use_by_letter(name)
    }
}
