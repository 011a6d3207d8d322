use super::tree_of;
use base_core::{Control, Decimal, Edge, Place, TimeText};
use base_fixed_point::{FixType, Over, Round, TypeText};
use diagram_blocks::{How, Kind};
use diagram_meaning::Subsystem;
use std::alloc::Global;
use std::test::Fail;

/// An Inport that enters a subsystem twice: by its first port, whose output goes to its second.
const CROSSED: &str = "Inport a OutDataTypeStr=int32; \
    SubSystem s {; Inport x1 Port=1; Inport x2 Port=2; Outport y1 Port=1; Outport y2 Port=2; \
    x1 1 > y1 1; x2 1 > y2 1; }; Outport o; a 1 > s 1; s 1 > s 2; s 2 > o 1";

/// A subsystem with both controls, whose ports and lines are in another order than the enable before the trigger.
const CONTROLLED: &str = "Inport a OutDataTypeStr=int32; Inport b Port=2 OutDataTypeStr=boolean; \
    Inport c Port=3 OutDataTypeStr=boolean; \
    SubSystem s {; TriggerPort t TriggerType=falling; EnablePort e StatesWhenEnabling=reset; Inport x; Outport y; \
    x 1 > y 1; }; Outport o; c 1 > s trigger; b 1 > s enable; a 1 > s 1; s 1 > o 1";

/// Its control.
const BOTH: Control = Control::Both {
    reset: true,
    edge: Edge::Falling,
};

/// A sum with a sign, a delay with a start, and one of several samples.
const SUMMED: &str = "Inport a; Sum s Inputs=|+-; UnitDelay d InitialCondition=7; \
    Delay e DelayLength=3 X0=9 InitialCondition=5; a 1 > s 1; d 1 > s 2; s 1 > d 1; s 1 > e 1";

/// Rows whose types and times are written or inherited.
const TYPED: &str = "Inport a OutDataTypeStr=int32; Constant b Value=true; \
    Block { / BlockType Constant / Name c / OutDataTypeStr Inherit: Logical / SampleTime -1 / }";

/// What is seen of a row.
#[derive(Drop)]
struct SeenRow {
    place: Place,
    owner: Option<u32>,
    inputs: Vec<u32>,
    kind: Kind,
    type_text: TypeText,
    time_text: TimeText,
}

/// The same of a row of a model of these parts.
fn seen_in(alloc: Global, parts: &str, row: u32) -> Result<SeenRow, Fail> {
    let tree = tree_of(alloc, parts)?;
    let row = tree
        .table()
        .rows
        .as_slice()
        .get(row as usize)
        .ok_or("no row")?;
    Ok(SeenRow {
        place: row.place,
        owner: row.owner,
        inputs: row.inputs.wires().to_vec(alloc)?,
        kind: row.kind,
        type_text: row.type_text,
        time_text: row.time_text,
    })
}

/// A model's parts, and of one of its rows the number, the line, the owner and what it reads.
const PLACES: &[(&str, u32, u32, Option<u32>, &[u32])] = &[
    (CROSSED, 0, 3, None, &[]),
    (CROSSED, 1, 8, None, &[]),
    (CROSSED, 2, 12, Some(1), &[0]),
    (CROSSED, 3, 17, Some(1), &[4]),
    (CROSSED, 4, 22, Some(1), &[2]),
    (CROSSED, 5, 27, Some(1), &[3]),
    (CROSSED, 6, 46, None, &[5]),
    // The enable is before the trigger, whatever order their ports and lines have.
    (CONTROLLED, 3, 20, None, &[1, 2]),
    (CONTROLLED, 6, 34, Some(3), &[0]),
    (CONTROLLED, 8, 50, None, &[7]),
];

#[test]
fn places_and_inputs_of_rows(rt: HostRuntime) -> Result<(), Fail> {
    for &(parts, row, line, owner, inputs) in PLACES {
        let seen = seen_in(rt.alloc(), parts, row)?;
        assert_eq!(rt;
            (seen.place, seen.owner, seen.inputs.as_slice()),
            (Place { row, line }, owner, inputs),
            "row {row} of {parts}"
        );
    }
    Ok(())
}

/// A kind, with a numerator and a denominator in place of a number.
#[derive(Clone, Copy, Debug, PartialEq, Eq, Drop)]
enum PlainKind {
    SubSystem(Control),
    Sum {
        count: u8,
        minus: u32,
        how: How,
    },
    UnitDelay {
        initial: (i128, u128),
    },
    Delay {
        length: u32,
        initial: (i128, u128),
    },
    Outport {
        port: u32,
        reset: bool,
        initial: (i128, u128),
    },
}

fn fraction(number: Decimal) -> (i128, u128) {
    (number.num, number.den)
}

/// The same of a kind that is reported so.
fn plain(kind: Kind) -> Option<PlainKind> {
    match kind {
        Kind::SubSystem(control) => Some(PlainKind::SubSystem(control)),
        Kind::Sum { count, minus, how } => Some(PlainKind::Sum { count, minus, how }),
        Kind::UnitDelay { initial } => Some(PlainKind::UnitDelay {
            initial: fraction(initial),
        }),
        Kind::Delay { length, initial } => Some(PlainKind::Delay {
            length,
            initial: fraction(initial),
        }),
        Kind::Outport {
            port,
            reset,
            initial,
        } => Some(PlainKind::Outport {
            port,
            reset,
            initial: fraction(initial),
        }),
        _ => None,
    }
}

/// A model's parts, one of its rows, and what that is.
const KINDS: &[(&str, u32, PlainKind)] = &[
    (CONTROLLED, 3, PlainKind::SubSystem(BOTH)),
    (
        SUMMED,
        1,
        PlainKind::Sum {
            count: 2,
            minus: 2,
            how: How {
                round: Round::Floor,
                over: Over::Wrap,
            },
        },
    ),
    (SUMMED, 2, PlainKind::UnitDelay { initial: (7, 1) }),
    (
        SUMMED,
        3,
        PlainKind::Delay {
            length: 3,
            initial: (5, 1),
        },
    ),
    // An Outport holds its value and begins with 0, where nothing else is written.
    (
        "Ground g; g 1 > o 1; Outport o",
        1,
        PlainKind::Outport {
            port: 1,
            reset: false,
            initial: (0, 1),
        },
    ),
    (
        "Ground g; g 1 > o 1; Outport o OutputWhenDisabled=reset InitialOutput=2.5",
        1,
        PlainKind::Outport {
            port: 1,
            reset: true,
            initial: (5, 2),
        },
    ),
    (
        "Ground g; g 1 > o 1; Outport o InitialOutput=[]",
        1,
        PlainKind::Outport {
            port: 1,
            reset: false,
            initial: (0, 1),
        },
    ),
];

#[test]
fn kinds_of_rows(rt: HostRuntime) -> Result<(), Fail> {
    for &(parts, row, kind) in KINDS {
        let seen = seen_in(rt.alloc(), parts, row)?;
        assert_eq!(rt; plain(seen.kind), Some(kind), "row {row} of {parts}");
    }
    Ok(())
}

const INT32: FixType = FixType {
    signed: true,
    bits: 32,
    frac: 0,
};

#[test]
fn types_and_times_of_rows(rt: HostRuntime) -> Result<(), Fail> {
    for &(row, type_text, time_text) in &[
        (0, TypeText::Fixed(INT32), TimeText::Inherit),
        (1, TypeText::Inherit, TimeText::Constant),
        (2, TypeText::Logical, TimeText::Inherit),
    ] {
        let seen = seen_in(rt.alloc(), TYPED, row)?;
        assert_eq!(rt;
            (seen.type_text, seen.time_text),
            (type_text, time_text),
            "row {row}"
        );
    }
    Ok(())
}

/// What is seen of a system: its row, its line, its control and its own rows.
struct SeenSystem {
    row: Option<u32>,
    line: u32,
    control: Control,
    own: &'static [u32],
}

/// What is seen of a model of these parts: how many rows it has, its root, and the first subsystem in that.
struct SeenModel {
    parts: &'static str,
    rows: usize,
    root: SeenSystem,
    inner: SeenSystem,
}

const MODELS: &[SeenModel] = &[
    SeenModel {
        parts: CROSSED,
        rows: 7,
        root: SeenSystem {
            row: None,
            line: 2,
            control: Control::Plain,
            own: &[0, 1, 6],
        },
        inner: SeenSystem {
            row: Some(1),
            line: 8,
            control: Control::Plain,
            own: &[2, 3, 4, 5],
        },
    },
    SeenModel {
        parts: CONTROLLED,
        rows: 9,
        root: SeenSystem {
            row: None,
            line: 2,
            control: Control::Plain,
            own: &[0, 1, 2, 3, 8],
        },
        inner: SeenSystem {
            row: Some(3),
            line: 20,
            control: BOTH,
            own: &[4, 5, 6, 7],
        },
    },
];

/// Whether this is seen of a system.
fn is_seen(system: &Subsystem, expected: &SeenSystem) -> bool {
    system.row == expected.row
        && system.line == expected.line
        && system.control == expected.control
        && system.own.wires() == expected.own
}

/// Whether this is seen of such a model.
fn has_systems(alloc: Global, expected: &SeenModel) -> Result<bool, Fail> {
    let tree = tree_of(alloc, expected.parts)?;
    let root = tree.root();
    let inner = root.children.first().ok_or("no subsystem")?;
    Ok(
        tree.table().rows.len() == expected.rows
            && is_seen(root, &expected.root)
            && is_seen(inner, &expected.inner),
    )
}

#[test]
fn systems_of_models(rt: HostRuntime) -> Result<(), Fail> {
    for model in MODELS {
        assert!(rt; has_systems(rt.alloc(), model)?, "{}", model.parts);
    }
    Ok(())
}
