// The lines of a text and their words.
ghost use Rattle.std.specs.Prelude.{◌≡◌, ◌==◌, ◌++◌, ◌≤◌, ℕ, List, IfOk, MatchOption, count_by, length, map, min, not, suc, take_while};
ghost use Rattle.std.specs.List.{prefix_len, slice_split};
ghost use Rattle.modules_report.specs.Reading.{greatest_line};

use base_core::Memory;
use std::alloc::{AllocError, Global};

/// What follows a line with its end; none where another one is here.
pub(crate) fn past<'a>(text: &'a [u8], line: &[u8]) -> Option<&'a [u8]>
    ensures { MatchOption result ((more : List ℕ) → text.now ≡ line.now ++ more → ⊥)
        (λ next. text.now ≡ line.now ++ next.now) }
{
    text.strip_prefix(line)
}

/// The words of the first line, where each space ends one.
pub(crate) fn first_words(alloc: Global, text: &[u8]) -> Result<Vec<&[u8]>, Memory>
    ensures { IfOk result (λ words. map (λ w. w.now) words.items
        ≡ slice_split (λ b. b == 32) (take_while (λ b. not (b == 10)) text.now)) }
{
    let words = words_of(alloc, first_line(text))?;
    Ok(words)
}

// The first line without its end.
fn first_line(text: &[u8]) -> &[u8]
    ensures { result.now ≡ take_while (λ b. not (b == 10)) text.now }
{
    let (line, _) = text.split_at(line_len(text));
    line
}

fn line_len(text: &[u8]) -> usize
    ensures len { result ≡ prefix_len (λ b. not (b == 10)) text.now }
    ensures within { result ≤ length text.now }
{
    text.iter().take_while(|b| **b != b'\n').count()
}

fn words_of(alloc: Global, line: &[u8]) -> Result<Vec<&[u8]>, AllocError>
    ensures { IfOk result (λ words. map (λ w. w.now) words.items
        ≡ slice_split (λ b. b == 32) line.now) }
{
    line.split(|b| *b == b' ').collect(alloc)
}

/// The number of the line after a text, or the greatest one.
pub(crate) fn line_behind(text: &[u8]) -> u32
    ensures { result ≡ min (suc (count_by (λ b. b == 10) text.now)) greatest_line }
{
    let ends = text.iter().filter(|b| **b == b'\n').count();
    u32::try_from(ends).unwrap_or(u32::MAX).saturating_add(1)
}
