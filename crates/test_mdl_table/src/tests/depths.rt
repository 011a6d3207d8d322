use super::answer;
use std::alloc::{AllocError, Global};
use std::test::Fail;
use test_models::is_told_in_root;

/// So many subsystems, each inside the one before and four lines below it.
fn nested(alloc: Global, count: usize) -> Result<String, AllocError> {
    let opened = "SubSystem s {; ".repeat(alloc, count)?;
    let closed = "}; ".repeat(alloc, count)?;
    format!(in alloc; "{opened}{closed}")
}

// The deepest that may be, one that may not, and the first of two such.
#[test]
fn deep_subsystems(rt: HostRuntime) -> Result<(), Fail> {
    for &(depth, expected) in &[
        (32, "accepted"),
        (33, "refused F5 TooDeep line 131"),
        (34, "refused F5 TooDeep line 131"),
    ] {
        let parts = nested(rt.alloc(), depth)?;
        is_told_in_root(rt.alloc(), &answer, &parts, expected)?;
    }
    Ok(())
}
