// The lines in which a call of the tool ends.
ghost use Rattle.std.specs.Prelude.{◌≡◌, ◌∷◌, [], IfOk, string_bytes, codes, decimal};
ghost use Rattle.base_core.specs.Bytes.{line_of_words};
ghost use Rattle.base_core.specs.Words.{at_line};
ghost use Rattle.tool_endings.specs.Texts as text;

use base_core::Place;
use c_syntax::{CFault, CKind, Stuck, Why};
use lustre_flows::{LusStuck, LusWhy};
use std::alloc::{AllocError, Global};
use tool_runner::Totals;
use tool_traces::{BadLine, BadWhy};

/// The usage line.
pub const USAGE: &str =
    "usage: mdlc compile MODEL CODE | run MODEL CODE TRACE | exec CODE TRACE | profile MODEL | drive MODEL CODE SUBSYSTEM SCRIPT | gen START SIZE MODEL CODE | lustre MODEL FILE | flow FILE TRACE\n";

/// The line of a compilation's counts.
pub fn compiled_line(
    alloc: Global,
    rows: u32,
    systems: u32,
    functions: u32,
) -> Result<String, AllocError>
    ensures { IfOk result (λ line. string_bytes line ≡ text.compiled_line rows systems functions) }
{
    format!(in alloc; "compiled rows {rows} systems {systems} functions {functions}\n")
}

/// The line of what a run took.
pub fn totals_line(alloc: Global, totals: Totals) -> Result<String, AllocError>
    ensures { IfOk result (λ line. string_bytes line
        ≡ text.totals_line totals.ticks totals.steps totals.calls) }
{
    let Totals {
        ticks,
        steps,
        calls,
    } = totals;
    format!(in alloc; "ticks {ticks} steps {steps} calls {calls}\n")
}

/// The line of how many nodes a file of Lustre has.
pub fn nodes_line(alloc: Global, nodes: usize) -> Result<String, AllocError>
    ensures { IfOk result (λ line. string_bytes line ≡ text.nodes_line nodes) }
{
    format!(in alloc; "lustre nodes {nodes}\n")
}

/// The line of how many ticks flows had.
pub fn ticks_line(alloc: Global, ticks: u64) -> Result<String, AllocError>
    ensures { IfOk result (λ line. string_bytes line ≡ text.ticks_line ticks) }
{
    format!(in alloc; "ticks {ticks}\n")
}

// The line for a line of a trace, with a word on it.
fn trace_line(alloc: Global, line: u32, word: &str) -> Result<String, AllocError>
    ensures { IfOk result (λ text. string_bytes text
        ≡ line_of_words (codes "trace" ∷ at_line line (word.now ∷ []))) }
{
    format!(in alloc; "trace line {line} {word}\n")
}

// The same with a number after the word.
fn trace_line_with(alloc: Global, line: u32, word: &str, number: u32) -> Result<String, AllocError>
    ensures { IfOk result (λ text. string_bytes text
        ≡ line_of_words (codes "trace" ∷ at_line line (word.now ∷ decimal number ∷ []))) }
{
    format!(in alloc; "trace line {line} {word} {number}\n")
}

/// The line for a line of a trace that is no row.
pub fn bad_line_line(alloc: Global, bad: BadLine) -> Result<String, AllocError>
    ensures { IfOk result (λ line. string_bytes line ≡ text.bad_line_line bad) }
{
    let line = bad.line;
    match bad.why {
        BadWhy::Long => trace_line(alloc, line, "Long"),
        BadWhy::Many => trace_line(alloc, line, "Many"),
        BadWhy::Count(found) => trace_line_with(alloc, line, "Count", found),
        BadWhy::Form(field) => trace_line_with(alloc, line, "Form", field),
        BadWhy::Range(field) => trace_line_with(alloc, line, "Range", field),
    }
}

// What is wrong with a text.
fn kind_word(kind: CKind) -> &'static str
    ensures { result.now ≡ text.kind_word kind }
{
    match kind {
        CKind::Syntax => "Syntax",
        CKind::Deep => "Deep",
        CKind::Name => "Name",
        CKind::TypeRule => "Type",
    }
}

// The line for a text that is refused, by what it should be, with a word on why.
fn refused_line(alloc: Global, kind: &str, line: u32, word: &str) -> Result<String, AllocError>
    ensures { IfOk result (λ said. string_bytes said
        ≡ text.refused_line kind.now line word.now) }
{
    format!(in alloc; "{kind} refused line {line} {word}\n")
}

/// The line for code that is no program.
pub fn code_refused_line(alloc: Global, fault: CFault) -> Result<String, AllocError>
    ensures { IfOk result (λ line. string_bytes line ≡ text.code_refused_line fault) }
{
    refused_line(alloc, "code", fault.line, kind_word(fault.kind))
}

/// The line for a file that is no file of Lustre.
pub fn lustre_refused_line(alloc: Global, fault: CFault) -> Result<String, AllocError>
    ensures { IfOk result (λ line. string_bytes line ≡ text.lustre_refused_line fault) }
{
    refused_line(alloc, "lustre", fault.line, kind_word(fault.kind))
}

/// The line for a delay that is too long for a file of Lustre.
pub fn long_delay_line(alloc: Global, place: Place) -> Result<String, AllocError>
    ensures { IfOk result (λ line. string_bytes line ≡ text.long_delay_line place) }
{
    refused_line(alloc, "lustre", place.line, "LongDelay")
}

// Why the machine can't go on.
fn stuck_word(why: Why) -> &'static str
    ensures { result.now ≡ text.stuck_word why }
{
    match why {
        Why::Overflow => "Overflow",
        Why::ZeroDivisor => "ZeroDivisor",
        Why::Range => "Range",
        Why::Steps => "Steps",
        Why::Index => "Index",
    }
}

// Why flows can't go on.
fn flow_word(why: LusWhy) -> &'static str
    ensures { result.now ≡ text.flow_word why }
{
    match why {
        LusWhy::Overflow => "Overflow",
        LusWhy::ZeroDivisor => "ZeroDivisor",
        LusWhy::Pre => "Pre",
        LusWhy::Cycle => "Cycle",
    }
}

// The line for a place where a run is stuck, with a word on why.
fn stuck_at(alloc: Global, line: u32, word: &str) -> Result<String, AllocError>
    ensures { IfOk result (λ said. string_bytes said ≡ text.stuck_at line word.now) }
{
    format!(in alloc; "stuck line {line} {word}\n")
}

/// The line for code that can't go on.
pub fn stuck_line(alloc: Global, at: Stuck) -> Result<String, AllocError>
    ensures { IfOk result (λ line. string_bytes line ≡ text.stuck_line at) }
{
    stuck_at(alloc, at.line, stuck_word(at.why))
}

/// The line for flows that can't go on.
pub fn flow_stuck_line(alloc: Global, at: LusStuck) -> Result<String, AllocError>
    ensures { IfOk result (λ line. string_bytes line ≡ text.flow_stuck_line at) }
{
    stuck_at(alloc, at.line, flow_word(at.why))
}
