ghost use Rattle.std.specs.Prelude.{◌≡◌, ◌≢◌, None, IfSome};
ghost use Rattle.base_host.specs.Fakes.{files_of};
ghost use Rattle.tool_words.specs.Words.{word_bytes, asked_by};
ghost use Rattle.tool_endings.specs.Told.{told, sink_told};
ghost use Rattle.tool_endings.specs.Endings.{EndsAt};
ghost use Rattle.tool_endings.specs.Statuses.{IsExactly, ComesExactly, IsDone};
ghost use Rattle.tool_endings.specs.Completeness.{CanDo, IsUnsureOf, LacksFile};
ghost use Rattle.tool_endings.specs.Calls.{IsCall, IsSureCall};

use crate::finishing::finish;
use base_host::{Host, Sink, SureHost, SureSink};
use std::alloc::Global;
use tool_commands::act;
use tool_ending_laws::{
    each_status_is_exact, endings_are_complete, endings_do_right, faultless_is_calm,
    faults_are_counted, five_is_needed, five_is_read_fault, nothing_is_written, statuses_are_exact,
    sure_are_done, sure_hosts_are_sure, usage_is_exact,
};

// Does what the words ask for, prints the text of how it ended, and says the status.
fn run<H: Host, S: Sink>(alloc: Global, words: &[String], host: &mut H, out: &mut S) -> u8
    ensures ended { let at = told H.files H.rest H.given H.written H.sure H.read_faults H.write_faults in
        let sink = sink_told S.bytes S.faults in
        EndsAt result (asked_by (word_bytes words.now)) (at host.old) (at host.new) (sink out.old)
        (sink out.new) }
    ensures unsure { IfSome (asked_by (word_bytes words.now)) (λ asked. result ≡ 5 →
        IsUnsureOf H.files H.sure host.old asked) }
{
    five_is_read_fault();
    let ending = act(alloc, words, host, out);
    finish(alloc, out, ending)
}

/// Does what the words after the program's name ask for, and says the status: 0 where the work is done, 2 for words that
/// are no command, 3 for a model that is refused, 4 for a line of the trace that is no row or a script that can't be run to its
/// end, 5, 6 and 7 for errors of reading, writing and printing, 8 for code that is no program, 9 for code or flows that are stuck,
/// 10 for running out of memory, and 11 for a file that is none of Lustre or a delay that is too long for one.
pub fn run_tool<H: Host, S: Sink>(alloc: Global, words: &[String], host: &mut H, out: &mut S) -> u8
    // What was asked for is done right: what is written and printed, the status, and what stays as it was.
    ensures call { let at = told H.files H.rest H.given H.written H.sure H.read_faults H.write_faults in
        let sink = sink_told S.bytes S.faults in
        IsCall result (asked_by (word_bytes words.now)) (at host.old) (at host.new) (sink out.old)
        (sink out.new) }

    // What can be done is done by a host that is sure of the files that are read.
    ensures sure { let at = told H.files H.rest H.given H.written H.sure H.read_faults H.write_faults in
        let sink = sink_told S.bytes S.faults in
        IsSureCall H.files H.sure host.old result (asked_by (word_bytes words.now)) (at host.old)
        (at host.new) (sink out.old) (sink out.new) }
{
    endings_do_right();
    nothing_is_written();
    usage_is_exact();
    statuses_are_exact();
    each_status_is_exact();
    faults_are_counted();
    faultless_is_calm();
    endings_are_complete();
    sure_are_done();
    run(alloc, words, host, out)
}

/// Over a host that has these files and doesn't fail: what can be done with them is done, unless memory runs out. The status is
/// 0, 2, 3, 4, 8, 9 or 11 only where `run_tool` gives it for these files, 5 only where one that is read isn't among them and is needed,
/// and never 6 or 7.
pub fn run_surely(alloc: Global, words: &[String], files: Vec<(String, Vec<u8>)>) -> u8
    ensures done { IfSome (asked_by (word_bytes words.now)) (λ asked. CanDo asked (files_of files.items) →
        IsDone result) }
    ensures usage { IsExactly 2 result (asked_by (word_bytes words.now) ≡ None) }
    ensures comes { IfSome (asked_by (word_bytes words.now))
        (λ asked. ComesExactly result asked (files_of files.items)) }
    ensures missing { IfSome (asked_by (word_bytes words.now)) (λ asked. result ≡ 5 →
        LacksFile asked (files_of files.items)) }
    ensures never { (result ≢ 6) × (result ≢ 7) }
{
    sure_hosts_are_sure();
    five_is_needed();
    let mut host = SureHost::new(files);
    let mut out = SureSink::new();
    run_tool(alloc, words, &mut host, &mut out)
}
