use c_syntax::{CFault, CKind};
use lustre_reader::{ReadLusFault, read_lustre};
use std::alloc::Global;
use std::test::Fail;

// A node whose one equation has this expression on line 3, inside so many others.
fn nested(alloc: Global, count: usize, inner: &str) -> Result<String, Fail> {
    let opened = "(- ".repeat(alloc, count)?;
    let closed = ")".repeat(alloc, count)?;
    Ok(format!(in alloc; "node a () returns (y: int);\nlet y =\n{opened}{inner}{closed};\ntel;\n")?)
}

const DEEP: Option<ReadLusFault> = Some(ReadLusFault::Refused(CFault {
    line: 3,
    kind: CKind::Deep,
}));

// The name after `pre` is no expression by itself.
#[test]
fn depths_up_to_the_limit(rt: HostRuntime) -> Result<(), Fail> {
    let alloc = rt.alloc();
    for &(count, inner, fault) in &[
        (99, "7", None),
        (99, "(pre y)", None),
        (100, "7", DEEP),
        (100, "(pre y)", DEEP),
    ] {
        let text = nested(alloc, count, inner)?;
        let read = read_lustre(alloc, text.as_bytes());
        assert_eq!(rt; read.err(), fault);
    }
    Ok(())
}
