use c_interpreter::Machine;
use c_reader::read_c;
use c_syntax::{Cost, Stuck};
use std::alloc::{AllocError, Global};
use std::fmt::Write;
use std::test::Fail;

// Before the statements of `root_step`, which begin on line 19. Instance 0 is the root, 1 its m, 2 and 3 the l and r of m,
// and 4 the root's n.
const NESTED: &str = "#include <stdint.h>
struct leaf { int8_t v; int32_t w; };
struct mid { int32_t a; struct leaf l; struct leaf r; };
struct root { struct mid m; int32_t y1; struct leaf n; };
void leaf_update(struct leaf *s) {
  if (INT64_C(0) < (int64_t)s->w) {
    s->v = (int8_t)((int64_t)s->v + INT64_C(100));
  }
  s->w = (int32_t)((int64_t)s->w + INT64_C(1));
}
void mid_out1(struct mid *s) {
  s->a = (int32_t)INT64_C(5);
  leaf_update(&s->r);
}
void root_start(struct root *s) {
  s->y1 = (int32_t)INT64_C(9);
}
void root_step(struct root *s) {
";

// Before the statements of `root_step`, which begin on line 20. Instance 1 has two arrays, and a number between them that
// begins with the number at `START`.
const RINGS: &str = "#include <stdint.h>
struct ring { int8_t a[3]; int32_t w; int8_t b[2]; };
struct root { int32_t y1; struct ring r; };
void ring_update(struct ring *s) {
  s->a[(int64_t)s->w] = (int8_t)((int64_t)s->a[(int64_t)s->w] + INT64_C(60));
  s->b[INT64_C(0)] = (int8_t)(int64_t)s->w;
  s->w = (int32_t)((int64_t)s->a[INT64_C(0)] + (int64_t)s->b[INT64_C(0)]);
}
void ring_out1(struct ring *s) {
  s->w = (int32_t)(INT64_C(1) + (-(int64_t)s->w));
  s->a[(int64_t)s->w] = (int8_t)(INT64_C(1) / INT64_C(0));
}
void ring_set(struct ring *s, int32_t v) {
  s->w = (int32_t)(int64_t)v;
}
void root_start(struct root *s) {
  ring_set(&s->r, (int32_t)INT64_C(START));
}
void root_step(struct root *s) {
";

// The machine of a text whose `START` is this, without its last statements, which are in `root_step`.
fn machine_of(alloc: Global, text: &str, start: &str, step: &str) -> Result<Machine, Fail> {
    let (before, behind) = text.split_once("START").unwrap_or((text, ""));
    let whole = format!(in alloc; "{before}{start}{behind}{step}\n}}\n")?;
    let checked = read_c(alloc, whole.as_bytes())?;
    Ok(Machine::new(alloc, checked)?)
}

const DIVIDE: &str = "  s->y1 = (int32_t)((int64_t)s->y1 / (int64_t)s->m.a);";

// A tick of a program without inputs and with one output.
fn tick_of(machine: &mut Machine) -> Option<Result<Cost, Stuck>> {
    let checked = machine.checked();
    let mut outputs = [0];
    if checked.inputs().is_empty() && checked.outputs() as usize == outputs.len() {
        Some(machine.tick(&[], &mut outputs))
    } else {
        None
    }
}

// Says of these fields of a machine's instances: the number and the instance that each is.
fn tell(alloc: Global, machine: &Machine, fields: &[(u32, &str)]) -> Result<String, AllocError> {
    let mut text = String::new(alloc);
    for &(instance, name) in fields {
        let number = machine.field(instance, name.as_bytes());
        let child = machine.child(instance, name.as_bytes());
        write!(text, "{instance}.{name} {number:?} {child:?}, ")?;
    }
    Ok(text)
}

/// A program: its text, what it begins with, and its last statements; so many ticks; some fields; and what is reported of these.
type Run = (
    &'static str,
    &'static str,
    &'static str,
    u32,
    &'static [(u32, &'static str)],
    &'static str,
);

const RUNS: &[Run] = &[
    // instances and numbers by their names
    (
        NESTED,
        "",
        DIVIDE,
        0,
        &[
            (0, "m"),
            (1, "l"),
            (1, "r"),
            (0, "n"),
            (0, "y1"),
            (1, "a"),
            (4, "w"),
            (0, "l"),
            (0, "a"),
            (5, "m"),
            (5, "y1"),
        ],
        "0.m None Some(1), 1.l None Some(2), 1.r None Some(3), 0.n None Some(4), 0.y1 Some(9) None, 1.a Some(0) None, \
         4.w Some(0) None, 0.l None None, 0.a None None, 5.m None None, 5.y1 None None, ",
    ),
    // A tick that is stuck stores nothing more.
    (NESTED, "", DIVIDE, 1, &[(0, "y1")], "0.y1 Some(9) None, "),
    // A tick calls m's procedure, which calls that of r, and then that of n: of l nothing changes.
    (
        NESTED,
        "",
        "  mid_out1(&s->m);\n  leaf_update(&s->n);",
        3,
        &[
            (1, "a"),
            (2, "v"),
            (2, "w"),
            (3, "v"),
            (3, "w"),
            (4, "v"),
            (4, "w"),
        ],
        "1.a Some(5) None, 2.v Some(0) None, 2.w Some(0) None, 3.v Some(100) None, 3.w Some(2) None, \
         4.v Some(100) None, 4.w Some(2) None, ",
    ),
    // The number is 0, then 60 + 0, which is no index of a. An array is no number, and no instance.
    (
        RINGS,
        "0",
        "  ring_update(&s->r);\n  s->y1 = (int32_t)(int64_t)s->r.w;",
        1,
        &[(1, "w"), (1, "a")],
        "1.w Some(60) None, 1.a None None, ",
    ),
    (
        RINGS,
        "0",
        "  ring_update(&s->r);\n  s->y1 = (int32_t)(int64_t)s->r.w;",
        2,
        &[(1, "w")],
        "1.w Some(60) None, ",
    ),
    // The item at 1 is 60, then 120, and 180 is out of its type.
    (
        RINGS,
        "1",
        "  ring_update(&s->r);",
        3,
        &[(1, "w")],
        "1.w Some(1) None, ",
    ),
    // With 1 the index is one of a's, and the value is stuck; with -59 the index is stuck first.
    (
        RINGS,
        "0",
        "  ring_out1(&s->r);",
        1,
        &[(1, "w")],
        "1.w Some(1) None, ",
    ),
    (
        RINGS,
        "0",
        "  ring_update(&s->r);\n  ring_out1(&s->r);",
        1,
        &[(1, "w")],
        "1.w Some(-59) None, ",
    ),
];

// What is reported of a run's fields after its ticks.
fn told(alloc: Global, run: &Run) -> Result<String, Fail> {
    let (text, start, step, ticks, fields, _) = *run;
    let mut machine = machine_of(alloc, text, start, step)?;
    for _ in 0..ticks {
        tick_of(&mut machine);
    }
    Ok(tell(alloc, &machine, fields)?)
}

#[test]
fn fields_behind_ticks(rt: HostRuntime) -> Result<(), Fail> {
    for run in RUNS {
        let told = told(rt.alloc(), run)?;
        assert_eq!(rt; told.as_str(), run.5);
    }
    Ok(())
}
