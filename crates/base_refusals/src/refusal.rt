use base_core::{ParamName, Place, Port};

/// What is wrong with a line of a model's text.
#[derive(Clone, Copy, Debug, PartialEq, Eq, Drop)]
pub enum SyntaxKind {
    /// The line begins with nothing that a line may begin with, or goes on wrongly after a name or a `}`.
    BadName,
    /// A string without its end on the line.
    OpenString,
    /// Text after the end of a string.
    AfterString,
    /// A value in brackets without its `]`.
    OpenBracket,
    /// A string alone with nothing before it that it goes on with.
    StrayString,
    /// A `}` with no section open, or the end of the file with one open.
    Brace,
    /// A section inside 128 others.
    DeepSections,
}

/// The section at the top that a file with one model doesn't have.
#[derive(Clone, Copy, Debug, PartialEq, Eq, Drop)]
pub enum ModelKind {
    /// A `Library`.
    Library,
    /// A second `Model`.
    Second,
}

/// What there is too much of.
#[derive(Clone, Copy, Debug, PartialEq, Eq, Drop)]
pub enum Many {
    /// Blocks of the file.
    Blocks,
    /// Inports of one system.
    Inports,
    /// Outports of one system.
    Outports,
}

/// The quantity of the sample times that exceeds its bound.
#[derive(Clone, Copy, Debug, PartialEq, Eq, Drop)]
pub enum CycleWhat {
    /// The least common multiple of the denominators of all times.
    Denominator,
    /// A period in base ticks.
    Period,
    /// The least common multiple of all periods in base ticks.
    Hyper,
}

/// Why a row has no type: there is none, or the written one is another than that of the input.
#[derive(Clone, Copy, Debug, PartialEq, Eq, Drop)]
pub enum TypeWhy {
    /// No type is met.
    Missing,
    /// The written type is another than that of the input.
    Unlike,
}

/// Why a model is refused.
#[derive(Debug, Drop)]
pub enum Refusal {
    /// F1: the file has more than 16,777,216 bytes.
    TooLong,
    /// F2: the text has an error at this line.
    Syntax {
        line: u32,
        kind: SyntaxKind,
    },
    /// F3: there is no Model (line 0), or it holds no System (its line).
    NoModel {
        line: u32,
    },
    /// F4: a section at the top is a Library, or a second Model.
    TwoModels {
        line: u32,
        kind: ModelKind,
    },
    /// F5: a SubSystem is inside 32 others.
    TooDeep {
        line: u32,
    },
    /// F6: more than 20,000 Blocks, or more than 32 Inports or Outports in one system; `count` is how many there are.
    TooMany {
        line: u32,
        what: Many,
        count: u32,
    },
    /// F7: a Block that is not of the language; a Line or Branch with `Src` or `Dst`.
    Unsupported {
        line: u32,
    },
    /// F8: the text of a parameter is not of its form.
    Parameter {
        line: u32,
        name: ParamName,
    },
    /// F9: the Block has the Name, or the Port, of an earlier one of its system.
    DoubleName {
        line: u32,
    },
    /// F10: a Line or Branch names no Block of its system.
    NoBlock {
        line: u32,
    },
    /// F11: a Line or Branch names a port that its Block does not have.
    NoPort {
        line: u32,
    },
    /// F12: a Line or Branch ends at an input that an earlier one has.
    TwoSources {
        line: u32,
    },
    /// F13: an input or control of the Block has no line.
    Unconnected {
        line: u32,
        port: Port,
    },
    /// F14: a second port of one control in a system, or one in the root.
    TwoControls {
        line: u32,
    },
    /// F15: a period 0.
    Continuous {
        line: u32,
    },
    /// F16: a floating-point type.
    FloatType {
        line: u32,
    },
    /// F17: the row has no type, or writes another than its input has.
    NoType {
        line: u32,
        why: TypeWhy,
    },
    /// F18: the trigger of the subsystem has a signed type.
    TriggerSigned {
        line: u32,
    },
    /// F19: the row needs so many bits, more than 62.
    TooWide {
        line: u32,
        bits: u32,
    },
    /// F20: a written period inside a subsystem with a trigger.
    TimeInside {
        line: u32,
    },
    /// F21: a quantity of the sample times exceeds its bound; `h` is the number that does.
    LongCycle {
        line: u32,
        what: CycleWhat,
        h: u64,
    },
    /// F22: of two rates with offset 0 neither period is a multiple of the other, or one has an offset; both in base
    /// ticks.
    RateRatio {
        line: u32,
        inside: u32,
        outside: u32,
    },
    /// F23: these rows need each other at one tick, each the next.
    Loop {
        rows: Vec<Place>,
    },
    /// F24: the lengths of the Delays up to this one sum to `total`, more than 1,000,000.
    LongDelays {
        line: u32,
        total: u32,
    },
}
