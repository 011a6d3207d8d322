use base_core::{Memory, Port};
use modules_certificate::Difference;
use modules_profile::Function;
use modules_report::{ReportFault, SystemReport, read_report};
use std::alloc::Global;
use std::test::Fail;

/// A system without subsystems around one whose two outputs need an input each.
const CROSSED: &str = "system top inputs 1 outputs 1 functions 1\nout 1 needs 1 outputs 1\n\
    system s1 inputs 2 outputs 2 functions 2\nout 1 needs 1 outputs 1\nout 2 needs 2 outputs 2\n\
    differ 1 2 by 1\nsystems 2\n";

/// A text, how many systems it describes, and what is read of the last: its row, its inputs, outputs and controls, its
/// functions, and its certificate.
struct ReadSystem {
    text: &'static str,
    systems: usize,
    row: Option<u32>,
    inputs: u32,
    outputs: u32,
    controls: &'static [Port],
    functions: &'static [Function],
    representatives: &'static [u8],
    differ: &'static [Difference],
}

/// The first two representatives differ in input 1.
const BY_INPUT_1: Difference = Difference {
    first: 0,
    second: 1,
    bit: 0,
};

const READ_SYSTEMS: &[ReadSystem] = &[
    // a delay
    ReadSystem {
        text: "system top inputs 1 outputs 1 functions 1\nout 1 needs none outputs 1\nsystems 1\n",
        systems: 1,
        row: None,
        inputs: 1,
        outputs: 1,
        controls: &[],
        functions: &[Function {
            inputs: 0,
            outputs: 1,
        }],
        representatives: &[0],
        differ: &[],
    },
    // crossed ports
    ReadSystem {
        text: CROSSED,
        systems: 2,
        row: Some(1),
        inputs: 2,
        outputs: 2,
        controls: &[],
        functions: &[
            Function {
                inputs: 1,
                outputs: 1,
            },
            Function {
                inputs: 2,
                outputs: 2,
            },
        ],
        representatives: &[0, 1],
        differ: &[BY_INPUT_1],
    },
    // classes of outputs
    ReadSystem {
        text: "system top inputs 1 outputs 3 functions 2\nout 1 needs 1 outputs 1 2\n\
            out 2 needs none outputs 3\ndiffer 1 2 by 1\nsystems 1\n",
        systems: 1,
        row: None,
        inputs: 1,
        outputs: 3,
        controls: &[],
        functions: &[
            Function {
                inputs: 1,
                outputs: 3,
            },
            Function {
                inputs: 0,
                outputs: 4,
            },
        ],
        representatives: &[0, 2],
        differ: &[BY_INPUT_1],
    },
    // enable and trigger
    ReadSystem {
        text: "system s3 inputs 1 outputs 1 functions 1 control enable trigger\n\
            out 1 needs 1 enable trigger outputs 1\nsystems 1\n",
        systems: 1,
        row: Some(3),
        inputs: 1,
        outputs: 1,
        controls: &[Port::Enable, Port::Trigger],
        functions: &[Function {
            inputs: (3 << 32) + 1,
            outputs: 1,
        }],
        representatives: &[0],
        differ: &[],
    },
];

/// Whether this is read of a system.
fn is_read(read: &SystemReport, expected: &ReadSystem) -> bool {
    let (profile, certificate) = (&read.profile, &read.certificate);
    (read.row, profile.row) == (expected.row, expected.row)
        && (read.inputs, read.outputs) == (expected.inputs, expected.outputs)
        && read.controls.as_slice() == expected.controls
        && profile.functions.as_slice() == expected.functions
        && certificate.representatives.as_slice() == expected.representatives
        && certificate.differ.as_slice() == expected.differ
}

/// Whether this is read of the last system of so many.
fn is_read_last(alloc: Global, expected: &ReadSystem) -> Result<bool, Fail> {
    let reports = read_report(alloc, expected.text.as_bytes())?;
    match reports.last() {
        Some(last) => Ok(reports.len() == expected.systems && is_read(last, expected)),
        None => Ok(false),
    }
}

#[test]
fn systems_read(rt: HostRuntime) -> Result<(), Fail> {
    for expected in READ_SYSTEMS {
        assert!(rt; is_read_last(rt.alloc(), expected)?, "{}", expected.text);
    }
    Ok(())
}

/// Texts, with the line of the error of form, or 0 where the text is one of reports.
const FAULTS: &[(&str, u32)] = &[
    // A whole report, and one that is cut in line 2.
    (CROSSED, 0),
    (
        "system top inputs 1 outputs 1 functions 1\nout 1 needs 1 out",
        2,
    ),
    // First lines.
    ("", 1),
    ("systems 0\n", 0),
    ("systems 0", 1),
    ("systems 0\n\n", 2),
    ("systems 1\n", 1),
    ("system top inputs 0 outputs 0 functions 0\nsystems 1\n", 0),
    ("system top inputs 0 outputs 0 functions 0\nsystems 2\n", 2),
    ("system top inputs 0 outputs 0 functions 0 \n", 1),
    ("system top inputs 0 outputs 0 functions 1\n", 1),
    ("system top inputs 1 outputs 1 functions 0\n", 1),
    ("system top inputs 1 outputs 1 functions 2\n", 1),
    ("system top inputs 1 outputs 3 functions 3\n", 1),
    (
        "system top inputs 1 outputs 3 functions 3 control trigger\n",
        2,
    ),
    ("system top inputs 33 outputs 1 functions 1\n", 1),
    ("system s4294967295 inputs 0 outputs 0 functions 0\n", 2),
    ("system s4294967296 inputs 0 outputs 0 functions 0\n", 1),
    ("system s01 inputs 0 outputs 0 functions 0\n", 1),
    (
        "system s1 inputs 0 outputs 0 functions 0 control trigger enable\n",
        1,
    ),
    // Later lines.
    (
        "system top inputs 2 outputs 2 functions 1\n\
         out 1 needs 1 outputs 1 2\nsystems 1\n",
        0,
    ),
    (
        "system top inputs 2 outputs 2 functions 1\n\
         out 1 needs 1 outputs 1\n",
        2,
    ),
    (
        "system top inputs 2 outputs 2 functions 1\n\
         out 2 needs 1 outputs 1 2\n",
        2,
    ),
    (
        "system top inputs 2 outputs 2 functions 1\n\
         out 1 needs 3 outputs 1 2\n",
        2,
    ),
    (
        "system top inputs 2 outputs 2 functions 1\n\
         out 1 needs 2 1 outputs 1 2\n",
        2,
    ),
    (
        "system top inputs 2 outputs 2 functions 1\n\
         out 1 needs 1 outputs 1 2 3\n",
        2,
    ),
    (
        "system top inputs 2 outputs 2 functions 2\n\
         out 1 needs 1 outputs 1 2\n",
        2,
    ),
    (
        "system top inputs 2 outputs 2 functions 2\n\
         out 1 needs 1 outputs 2\n",
        2,
    ),
    (
        "system top inputs 2 outputs 2 functions 2\n\
         out 1 needs 1 outputs 1\nout 2 needs 1 outputs 2\n",
        3,
    ),
    (
        "system top inputs 2 outputs 2 functions 2\n\
         out 1 needs 1 outputs 1\nout 2 needs 2 outputs 1\n",
        3,
    ),
    (
        "system top inputs 2 outputs 2 functions 2\n\
         out 1 needs 1 outputs 1\nout 2 needs 1 2 outputs 2\nsystems 1\n",
        4,
    ),
    (
        "system top inputs 2 outputs 2 functions 2\n\
         out 1 needs 1 outputs 1\nout 2 needs 1 2 outputs 2\ndiffer 1 2 by 1\n",
        4,
    ),
    (
        "system top inputs 2 outputs 2 functions 2\n\
         out 1 needs 1 outputs 1\nout 2 needs 1 2 outputs 2\ndiffer 1 2 by 2\nsystems 1\n",
        0,
    ),
];

/// The line of the error of form, 0 where the text is one of reports.
fn fault_line(alloc: Global, text: &str) -> Result<u32, Memory> {
    match read_report(alloc, text.as_bytes()) {
        Ok(_) => Ok(0),
        Err(ReportFault::Form { line }) => Ok(line),
        Err(ReportFault::Memory) => Err(Memory),
    }
}

#[test]
fn lines_of_faults(rt: HostRuntime) -> Result<(), Fail> {
    for &(text, line) in FAULTS {
        assert_eq!(rt; fault_line(rt.alloc(), text)?, line, "{text}");
    }
    Ok(())
}
