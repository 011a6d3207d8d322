use base_host::{SureHost, SureSink};
use std::alloc::{AllocError, Global};
use std::test::Fail;
use test_calls::{model_file, models, words_of};
use tool_entry::{run_surely, run_tool};

/// The status of a command over ends that are sure, where the host has this model, or no file if there is none.
fn surely(alloc: Global, line: &str, model: Option<&[u8]>) -> Result<u8, AllocError> {
    let words = words_of(alloc, line)?;
    let files = match model {
        Some(model) => model_file(alloc, model)?,
        None => Vec::new(alloc),
    };
    Ok(run_surely(alloc, &words, files))
}

/// The status of `compile` on one wire, and how many bytes its sink takes.
fn taken(alloc: Global) -> Result<(u8, u64), AllocError> {
    let words = words_of(alloc, "compile a.mdl a.c")?;
    let mut host = SureHost::new(model_file(alloc, models::ONE_WIRE)?);
    let mut out = SureSink::new();
    let status = run_tool(alloc, &words, &mut host, &mut out);
    Ok((status, out.taken()))
}

#[test]
fn nothing_fails_over_sure_ends(rt: HostRuntime) -> Result<(), Fail> {
    for &(line, model) in &[
        ("compile a.mdl a.c", Some(models::ONE_WIRE)),
        ("profile a.mdl", Some(models::ONE_DELAY)),
        // The smallest model, the greatest START, and a chain of some subsystems; no file is there.
        ("gen 1 1 g.mdl g.c", None),
        ("gen 2147483646 1 g.mdl g.c", None),
        ("gen 7 3 g.mdl g.c", None),
    ] {
        assert_eq!(rt; surely(rt.alloc(), line, model)?, 0, "{line}");
    }
    assert_eq!(rt; taken(rt.alloc())?, (0, 38));
    Ok(())
}
