// What the words of a line of a report say, where they are those of one.
ghost use Rattle.std.specs.Prelude.{◌≡◌, ◌<◌, ◌≤◌, ◌^◌, ◌∷◌, ◌++◌, ℕ, All, List, Some, [], bytes_eq, codes, decimal, length, map, not};
ghost use Rattle.std.specs.List.{list_any, prefix_len};
ghost use Rattle.base_core.specs.declared.Port.TheVariants.{Number};
ghost use Rattle.base_core.specs.declared.Port.{Port};
ghost use Rattle.base_core.specs.Words.{port_word};
ghost use Rattle.base_core.specs.Ports.{ports_mask};
ghost use Rattle.base_core.specs.Ports as ports;
ghost use Rattle.modules_profile.specs.Systems.{system_name};
ghost use Rattle.modules_report.specs.declared.head.Head.{Head};
ghost use Rattle.modules_report.specs.Following.{controls_with};
ghost use Rattle.modules_report.specs.Guesses.{IsPlaced, head_words, lists_words, told_function};
ghost use Rattle.modules_report.specs.Reading.{HasRow};
ghost use Rattle.modules_report.specs.Texts.{control_words, list_words};

use crate::head::Head;
use base_core::Port;
use modules_profile::Function;

/// What the words of a system's line say.
pub(crate) fn head_in(words: &[&[u8]]) -> Option<Head>
    ensures { (h : Head) → HasRow h.row → h.inputs < 2 ^ 32 → h.outputs < 2 ^ 32 →
        h.functions < 2 ^ 32
        → map (λ w. w.now) words.now ≡ head_words h → result ≡ Some h }
{
    let [_, name, _, inputs, _, outputs, _, functions, controls @ ..] = words else {
        return None;
    };
    head_of(name, inputs, outputs, functions, controls)
}

// What the words of a system's line say that aren't the same in all of them.
fn head_of(
    name: &[u8],
    inputs: &[u8],
    outputs: &[u8],
    functions: &[u8],
    controls: &[&[u8]],
) -> Option<Head>
    ensures { (h : Head) → HasRow h.row → h.inputs < 2 ^ 32 → h.outputs < 2 ^ 32 →
        h.functions < 2 ^ 32
        → name.now ≡ system_name h.row → inputs.now ≡ decimal h.inputs →
        outputs.now ≡ decimal h.outputs
        → functions.now ≡ decimal h.functions
        → map (λ w. w.now) controls.now ≡ control_words (controls_with h.enabled h.triggered) →
        result ≡ Some h }
{
    Some(Head {
        row: row_in(name)?,
        inputs: number_in(inputs)?,
        outputs: number_in(outputs)?,
        functions: number_in(functions)?,
        enabled: has_word(controls, b"enable"),
        triggered: has_word(controls, b"trigger"),
    })
}

/// What the words of a function's line say.
pub(crate) fn function_in(words: &[&[u8]]) -> Option<Function>
    ensures { (needs outputs : List Port) (first second third : List ℕ) → All IsPlaced needs →
        All IsPlaced outputs
        → ports_mask needs < 2 ^ 64 → ports_mask outputs < 2 ^ 32
        → map (λ w. w.now) words.now ≡ first ∷ second ∷ third ∷ lists_words needs outputs
        → result ≡ Some (told_function needs outputs) }
{
    let [_, _, _, lists @ ..] = words else {
        return None;
    };
    lists_in(lists)
}

// What the two lists of a function's line say.
fn lists_in(lists: &[&[u8]]) -> Option<Function>
    ensures { (needs outputs : List Port) → All IsPlaced needs → All IsPlaced outputs
        → ports_mask needs < 2 ^ 64 → ports_mask outputs < 2 ^ 32
        → map (λ w. w.now) lists.now ≡ lists_words needs outputs →
        result ≡ Some (told_function needs outputs) }
{
    let place = place_of(lists, b"outputs");
    if place == lists.len() {
        return None;
    }
    let inputs = set_in(&lists[..place]);
    let outputs = set_in(&lists[place + 1..]);
    match u32::try_from(outputs) {
        Ok(outputs) => Some(Function { inputs, outputs }),
        Err(_) => None,
    }
}

// How many words come before the first that is a word.
fn place_of(words: &[&[u8]], word: &[u8]) -> usize
    ensures within { result ≤ length words.now }
    ensures place { (before after : List (List ℕ)) → All (λ w. w ≡ word.now → ⊥) before
        → map (λ w. w.now) words.now ≡ before ++ word.now ∷ after → result ≡ length before }
{
    others_before(words, word)
}

// How many words that are others come first.
fn others_before(words: &[&[u8]], word: &[u8]) -> usize
    ensures within { result ≤ length words.now }
    ensures len { result ≡ prefix_len (λ w. not (bytes_eq w.now word.now)) words.now }
{
    words.iter().take_while(|w| !is(w, word)).count()
}

// Whether two words are one.
fn is(word: &[u8], other: &[u8]) -> bool
    ensures { result ≡ bytes_eq word.now other.now }
{
    word == other
}

// Whether a word is among the words.
fn has_word(words: &[&[u8]], word: &[u8]) -> bool
    ensures { result ≡ list_any (λ w. bytes_eq w.now word.now) words.now }
{
    words.iter().any(|w| is(w, word))
}

// The set of the ports that a list says.
fn set_in(words: &[&[u8]]) -> u64
    ensures { (ps : List Port) → All IsPlaced ps →
        map (λ w. w.now) words.now ≡ list_words (map port_word ps)
        → ports_mask ps < 2 ^ 64 → result ≡ ports_mask ps }
{
    if has_word(words, b"none") {
        return 0;
    }
    mask_in(words)
}

// The set of the ports that the words say, or the greatest number.
fn mask_in(words: &[&[u8]]) -> u64
    ensures { (ps : List Port) → All IsPlaced ps → map (λ w. w.now) words.now ≡ map port_word ps
        → ports_mask ps < 2 ^ 64 → result ≡ ports_mask ps }
{
    let mut mask = 0u64;
    for word in words {
        mask = mask.saturating_add(bit_in(word));
    }
    mask
}

// The set of the port that a word says, or the empty one.
fn bit_in(word: &[u8]) -> u64
    ensures { (p : Port) → IsPlaced p → word.now ≡ port_word p → result ≡ 2 ^ ports.bit_of p }
{
    match port_in(word) {
        Some(port) => bit_at(port.bit()),
        None => 0,
    }
}

fn bit_at(bit: u32) -> u64
    ensures { bit < 34 → result ≡ 2 ^ bit }
{
    if bit < 34 { 1 << bit } else { 0 }
}

fn port_in(word: &[u8]) -> Option<Port>
    ensures { (p : Port) → IsPlaced p → word.now ≡ port_word p → result ≡ Some p }
{
    if is(word, b"enable") {
        Some(Port::Enable)
    } else if is(word, b"trigger") {
        Some(Port::Trigger)
    } else {
        number_port(word)
    }
}

fn number_port(word: &[u8]) -> Option<Port>
    ensures { (k : ℕ) → k < 2 ^ 32 → word.now ≡ decimal k → result ≡ Some (Number k) }
{
    match number_in(word) {
        Some(k) => Some(Port::Number(k)),
        None => None,
    }
}

// The system of a name: the root, or that of a row.
fn row_in(name: &[u8]) -> Option<Option<u32>>
    ensures { (row : _) → HasRow row → name.now ≡ system_name row → result ≡ Some row }
{
    match name {
        [b's', row @ ..] => Some(Some(number_in(row)?)),
        _ => Some(None),
    }
}

#[tactic(auto, using(crate::proofs::PortGuesses::number_is_text))]
fn number_in(word: &[u8]) -> Option<u32>
    ensures { (n : ℕ) → n < 2 ^ 32 → word.now ≡ decimal n → result ≡ Some n }
{
    match str::from_utf8(word) {
        Ok(text) => number_of(text),
        Err(_) => None,
    }
}

#[tactic(auto, using(crate::proofs::PortGuesses::number_parsed))]
fn number_of(text: &str) -> Option<u32>
    ensures { (n : ℕ) → n < 2 ^ 32 → text.now ≡ decimal n → result ≡ Some n }
{
    match text.parse() {
        Ok(n) => Some(n),
        Err(_) => None,
    }
}
