ghost use Rattle.std.specs.Prelude.{IfErr, IfOk};
ghost use Rattle.diagram_meaning.specs.Needs.{HasNoLoop, needs_of};
ghost use Rattle.diagram_meaning.specs.ResolvedTable.{table_of_tree};
ghost use Rattle.diagram_meaning.specs.ResolvedTree.{diagram_of};
ghost use Rattle.tool_endings.specs.Told.{told};
ghost use Rattle.tool_endings.specs.Acting.{NotCompiled, NotWritten, WritesCodeOf, WritesCompiled};

use base_core::Memory;
use base_host::{Failed, Host, write_all};
use diagram_meaning::Resolved;
use emit_notes::Labels;
use std::alloc::Global;
use tool_compiled::Compiled;
use tool_compiler::compiled_from;
use tool_endings::Ending;
use tool_steps::{AcceptedFile, accept_file};

/// Compiles an accepted model into the file `code`.
pub fn write_code<H: Host>(
    alloc: Global,
    host: &mut H,
    r: &Resolved,
    labels: &Labels,
    code: &str,
) -> Result<Compiled, Ending>
    requires { HasNoLoop (needs_of (diagram_of r.now)) }
    ensures written { let at = told H.files H.rest H.given H.written H.sure H.read_faults H.write_faults in
        IfOk result (λ c. WritesCodeOf (table_of_tree r.now) labels.now c code.now (at host.old)
        (at host.new)) }
    ensures ended { let at = told H.files H.rest H.given H.written H.sure H.read_faults H.write_faults in
        IfErr result (λ ending. NotWritten ending (table_of_tree r.now) labels.now code.now
        (at host.old) (at host.new)) }
{
    let compiled = match compiled_from(alloc, r, labels) {
        Ok(compiled) => compiled,
        Err(Memory) => return Err(Ending::NoMemory),
    };
    match write_all(host, code, &compiled.code) {
        Ok(()) => Ok(compiled),
        Err(Failed) => Err(Ending::WriteFault),
    }
}

/// Compiles the file `model` into the file `code`.
pub fn compile_into<H: Host>(
    alloc: Global,
    host: &mut H,
    model: &str,
    code: &str,
) -> Result<Compiled, Ending>
    ensures compiled { let at = told H.files H.rest H.given H.written H.sure H.read_faults H.write_faults in
        IfOk result (λ compiled. WritesCompiled compiled model.now code.now (at host.old)
        (at host.new)) }
    ensures ended { let at = told H.files H.rest H.given H.written H.sure H.read_faults H.write_faults in
        IfErr result (λ ending. NotCompiled ending model.now code.now (at host.old) (at host.new)) }
{
    let AcceptedFile { resolved, labels } = match accept_file(alloc, host, model) {
        Ok(accepted) => accepted,
        Err(ending) => return Err(ending),
    };
    write_code(alloc, host, &resolved, &labels, code)
}
