ghost use Rattle.std.specs.Prelude.{◌≡◌, ◌∷◌, Some, IfOk, flat_map};
ghost use Rattle.base_refusals.specs.Refusals.{syntax_word, model_word, many_word, cycle_word, why_word, line_word, plain_refusal, refusal_phrase, refusal_line};

use crate::refusal::{CycleWhat, Many, ModelKind, Refusal, SyntaxKind, TypeWhy};
use base_core::{Memory, Place};
use std::alloc::Global;
use std::fmt;

impl SyntaxKind {
    fn word(self) -> &'static str
        ensures { result.now ≡ syntax_word self }
    {
        match self {
            SyntaxKind::BadName => "BadName",
            SyntaxKind::OpenString => "OpenString",
            SyntaxKind::AfterString => "AfterString",
            SyntaxKind::OpenBracket => "OpenBracket",
            SyntaxKind::StrayString => "StrayString",
            SyntaxKind::Brace => "Brace",
            SyntaxKind::DeepSections => "DeepSections",
        }
    }
}

impl fmt::Display for SyntaxKind {
    ghost output = { λ kind. Some (syntax_word kind) };

    fn fmt<W: fmt::Write>(&self, f: &mut fmt::Formatter<W>) -> fmt::Result {
        f.write_str(self.word())
    }
}

impl ModelKind {
    fn word(self) -> &'static str
        ensures { result.now ≡ model_word self }
    {
        match self {
            ModelKind::Library => "Library",
            ModelKind::Second => "Second",
        }
    }
}

impl fmt::Display for ModelKind {
    ghost output = { λ kind. Some (model_word kind) };

    fn fmt<W: fmt::Write>(&self, f: &mut fmt::Formatter<W>) -> fmt::Result {
        f.write_str(self.word())
    }
}

impl Many {
    fn word(self) -> &'static str
        ensures { result.now ≡ many_word self }
    {
        match self {
            Many::Blocks => "Blocks",
            Many::Inports => "Inports",
            Many::Outports => "Outports",
        }
    }
}

impl fmt::Display for Many {
    ghost output = { λ what. Some (many_word what) };

    fn fmt<W: fmt::Write>(&self, f: &mut fmt::Formatter<W>) -> fmt::Result {
        f.write_str(self.word())
    }
}

impl CycleWhat {
    fn word(self) -> &'static str
        ensures { result.now ≡ cycle_word self }
    {
        match self {
            CycleWhat::Denominator => "Denominator",
            CycleWhat::Period => "Period",
            CycleWhat::Hyper => "Hyper",
        }
    }
}

impl fmt::Display for CycleWhat {
    ghost output = { λ what. Some (cycle_word what) };

    fn fmt<W: fmt::Write>(&self, f: &mut fmt::Formatter<W>) -> fmt::Result {
        f.write_str(self.word())
    }
}

impl TypeWhy {
    fn word(self) -> &'static str
        ensures { result.now ≡ why_word self }
    {
        match self {
            TypeWhy::Missing => "Missing",
            TypeWhy::Unlike => "Unlike",
        }
    }
}

impl fmt::Display for TypeWhy {
    ghost output = { λ why. Some (why_word why) };

    fn fmt<W: fmt::Write>(&self, f: &mut fmt::Formatter<W>) -> fmt::Result {
        f.write_str(self.word())
    }
}

/// The lines of a cycle's blocks, each after a space.
#[derive(Drop)]
struct CycleLines<'a>(&'a [Place]);

impl fmt::Display for CycleLines<'_> {
    ghost output = { λ cycle. Some (flat_map (λ place. 32 ∷ line_word place) cycle.0.now) };

    fn fmt<W: fmt::Write>(&self, f: &mut fmt::Formatter<W>) -> fmt::Result {
        for place in self.0 {
            write!(f, " {}", place.line)?;
        }
        Ok(())
    }
}

impl fmt::Display for Refusal {
    ghost output = { λ refusal. Some (refusal_phrase (plain_refusal refusal)) };

    fn fmt<W: fmt::Write>(&self, f: &mut fmt::Formatter<W>) -> fmt::Result {
        match self {
            Refusal::TooLong => write!(f, "F1 TooLong"),
            Refusal::Syntax { line, kind } => write!(f, "F2 Syntax line {line} {kind}"),
            Refusal::NoModel { line } => write!(f, "F3 NoModel line {line}"),
            Refusal::TwoModels { line, kind } => write!(f, "F4 TwoModels line {line} {kind}"),
            Refusal::TooDeep { line } => write!(f, "F5 TooDeep line {line}"),
            Refusal::TooMany { line, what, count } => {
                write!(f, "F6 TooMany line {line} {what} {count}")
            }
            Refusal::Unsupported { line } => write!(f, "F7 Unsupported line {line}"),
            Refusal::Parameter { line, name } => write!(f, "F8 Parameter line {line} {name}"),
            Refusal::DoubleName { line } => write!(f, "F9 DoubleName line {line}"),
            Refusal::NoBlock { line } => write!(f, "F10 NoBlock line {line}"),
            Refusal::NoPort { line } => write!(f, "F11 NoPort line {line}"),
            Refusal::TwoSources { line } => write!(f, "F12 TwoSources line {line}"),
            Refusal::Unconnected { line, port } => {
                write!(f, "F13 Unconnected line {line} port {port}")
            }
            Refusal::TwoControls { line } => write!(f, "F14 TwoControls line {line}"),
            Refusal::Continuous { line } => write!(f, "F15 Continuous line {line}"),
            Refusal::FloatType { line } => write!(f, "F16 FloatType line {line}"),
            Refusal::NoType { line, why } => write!(f, "F17 NoType line {line} {why}"),
            Refusal::TriggerSigned { line } => write!(f, "F18 TriggerSigned line {line}"),
            Refusal::TooWide { line, bits } => write!(f, "F19 TooWide line {line} bits {bits}"),
            Refusal::TimeInside { line } => write!(f, "F20 TimeInside line {line}"),
            Refusal::LongCycle { line, what, h } => {
                write!(f, "F21 LongCycle line {line} {what} {h}")
            }
            Refusal::RateRatio {
                line,
                inside,
                outside,
            } => write!(f, "F22 RateRatio line {line} in {inside} out {outside}"),
            Refusal::Loop { rows } => write!(f, "F23 Loop{}", CycleLines(rows)),
            Refusal::LongDelays { line, total } => {
                write!(f, "F24 LongDelays line {line} total {total}")
            }
        }
    }
}

/// The line that reports a refusal, with its end.
///
/// The words are `refused`, the refusal's number and name, and what it holds, as in
/// `refused F13 Unconnected line 7 port enable`. The only error is out of memory.
pub fn refusal_text(alloc: Global, r: &Refusal) -> Result<Vec<u8>, Memory>
    ensures { IfOk result (λ text. text.items ≡ refusal_line (plain_refusal r.now)) }
{
    let text = format!(in alloc; "refused {r}\n")?;
    Ok(text.into_bytes())
}
