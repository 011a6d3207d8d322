use c_syntax::{CFault, CKind};
use lustre_reader::{ReadLusFault, read_lustre};
use std::alloc::Global;
use std::test::Fail;

/// A text, and the line and kind of its first error, if it has one.
type Reading = (&'static str, Option<(u32, CKind)>);

const READINGS: &[Reading] = &[
    // At the end of a text an error is on its last line; a file has one node at least.
    ("", Some((1, CKind::Syntax))),
    ("node a () returns ();\nlet\n", Some((2, CKind::Syntax))),
    ("node a () returns (); let tel;", None),
    // names
    ("node s () returns (); let tel;", None),
    ("node a_T9 () returns (); let tel;", None),
    ("node a_t () returns (); let tel;", Some((1, CKind::Syntax))),
    ("node A () returns (); let tel;", Some((1, CKind::Syntax))),
    ("node pre () returns (); let tel;", Some((1, CKind::Syntax))),
    // numbers
    (
        "node a () returns (y: int); let y = 9223372036854775807; tel;",
        None,
    ),
    (
        "node a () returns (y: int); let y =\n9223372036854775808; tel;",
        Some((2, CKind::Syntax)),
    ),
    (
        "node a () returns (y: int); let y = 07; tel;",
        Some((1, CKind::Syntax)),
    ),
    // signs
    (
        "node a (u: int) returns (y: int); let y = (1->u); tel;",
        None,
    ),
    (
        "node a (u: int) returns (y: int); let y = (1 - > u); tel;",
        Some((1, CKind::Syntax)),
    ),
    (
        "node a (u: int) returns (y: int); let\ny ==\nu; tel;",
        Some((2, CKind::Syntax)),
    ),
    (
        "node a () returns (); let /* */ tel;",
        Some((1, CKind::Syntax)),
    ),
    // Only a call gives several names, or none.
    (
        "node f () returns (); let tel; node a () returns (); let = call f(); tel;",
        None,
    ),
    (
        "node a () returns (y, z: int); let tel;",
        Some((1, CKind::Syntax)),
    ),
    (
        "node a () returns (y: int; z: int); let\ny, z =\n1; tel;",
        Some((3, CKind::Syntax)),
    ),
    // A name that is read is on its own line; a wrong type is found before it, on the line of its equation.
    (
        "node a (u: int) returns (y: int);\nlet\ny = (u +\nz); tel;",
        Some((4, CKind::Name)),
    ),
    (
        "node a (u: int) returns (y: int);\nlet\ny = (u and\nz); tel;",
        Some((3, CKind::TypeRule)),
    ),
    // A second equation, one for an input, and none for an output, which is found on the line of the node.
    (
        "node a (u: int) returns (y: int); let y = u;\ny = 1; tel;",
        Some((2, CKind::Name)),
    ),
    (
        "node a (u: int) returns (y: int); let y = u;\nu = 1; tel;",
        Some((2, CKind::Name)),
    ),
    (
        "\nnode a (u: int)\nreturns (y: int); var\nx: int; let y = u; tel;",
        Some((2, CKind::Name)),
    ),
    // The last node has numbers alone, and no node calls itself.
    (
        "node a (u: bool) returns (); let tel;",
        Some((1, CKind::TypeRule)),
    ),
    (
        "node a (u: int) returns (y: int); let\ny = call a(u); tel;",
        Some((2, CKind::Name)),
    ),
];

// The line and kind of the first error of a text, if it has one.
fn first_fault(alloc: Global, text: &str) -> Result<Option<(u32, CKind)>, Fail> {
    match read_lustre(alloc, text.as_bytes()) {
        Ok(_) => Ok(None),
        Err(ReadLusFault::Refused(CFault { line, kind })) => Ok(Some((line, kind))),
        Err(memory) => Err(memory.into()),
    }
}

#[test]
fn first_faults(rt: HostRuntime) -> Result<(), Fail> {
    for &(text, fault) in READINGS {
        assert_eq!(rt; first_fault(rt.alloc(), text)?, fault);
    }
    Ok(())
}
