ghost use Rattle.std.specs.Prelude.{◌≡◌, is_some, string_bytes};
ghost use Rattle.std.specs.List.{list_all};
ghost use Rattle.tool_words.specs.Words.{word_bytes, is_word, asked_by, command_with, with_two, with_three, with_four};

use crate::numbers::{size_of, start_of};

// Whether a word has a first byte, which is no `-`.
fn is_word(word: &str) -> bool
    ensures { result ≡ is_word word.now }
{
    match word.as_bytes() {
        [] => false,
        [first, ..] => *first != b'-',
    }
}

// Whether a command takes these two words.
fn takes_two(command: &str, first: &str, second: &str) -> bool
    ensures { result ≡ is_some (with_two command.now first.now second.now) }
{
    (command == "compile" && second != first)
        || command == "exec"
        || (command == "lustre" && second != first)
        || (command == "flow" && second != first)
}

// Whether a command takes these three words.
fn takes_three(command: &str, model: &str, code: &str, trace: &str) -> bool
    ensures { result ≡ is_some (with_three command.now model.now code.now trace.now) }
{
    command == "run" && code != model && code != trace
}

// Whether a command takes these four words.
fn takes_four(command: &str, first: &str, second: &str, third: &str, fourth: &str) -> bool
    ensures { result ≡ is_some (with_four command.now first.now second.now third.now fourth.now) }
{
    (command == "drive" && second != first && second != fourth)
        || (command == "gen"
            && fourth != third
            && start_of(first).is_some()
            && size_of(second).is_some())
}

// Whether a command takes these further words.
#[tactic(auto, using(crate::proofs::WordLists::one_word_asks, crate::proofs::WordLists::five_words_ask_nothing))]
fn takes(command: &str, further: &[String]) -> bool
    ensures { result ≡ is_some (command_with command.now (word_bytes further.now)) }
{
    match further {
        [_] => command == "profile",
        [first, second] => takes_two(command, first.as_str(), second.as_str()),
        [model, code, trace] => takes_three(command, model.as_str(), code.as_str(), trace.as_str()),
        [first, second, third, fourth] => takes_four(
            command,
            first.as_str(),
            second.as_str(),
            third.as_str(),
            fourth.as_str(),
        ),
        _ => false,
    }
}

// Whether each word has a first byte, which is no `-`.
fn are_words(words: &[String]) -> bool
    ensures { result ≡ list_all (λ w. is_word (string_bytes w)) words.now }
{
    words.iter().all(|word| is_word(word.as_str()))
}

/// Whether the words ask for something: they are a command with just its further words, each with a first byte that is no
/// `-`, the file to write is another than those that are named beside it, a file of Lustre is another than its trace, and numbers
/// are in their ranges.
pub fn is_lawful(words: &[String]) -> bool
    ensures { result ≡ is_some (asked_by (word_bytes words.now)) }
{
    match words.split_first() {
        Some((command, further)) => are_words(words) && takes(command.as_str(), further),
        None => false,
    }
}
