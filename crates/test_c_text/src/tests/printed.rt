use c_checked::Checked;
use c_printer::print;
use c_reader::read_c;
use c_syntax::Program;
use std::alloc::{AllocError, Global};
use std::fmt::Write;
use std::test::Fail;

// Each form of expressions, conditions and statements.
const EACH_FORM: &[u8] = b"#include <stdint.h>

static int64_t chosen(int64_t x, int64_t y) {
    return ((((int64_t)x > (int64_t)y) || (!((int64_t)x == (-INT64_C(5))))) ? (int64_t)x : ((int64_t)y % INT64_C(2)));
}

struct counter {
    int8_t n;
};

struct root {
    struct counter c;
    int32_t y1;
    int8_t a[65535];
};

static void counter_start(struct counter *s, int8_t v) {
    s->n = (int8_t)chosen((int64_t)v, INT64_C(3));
}

void root_start(struct root *s) {
    counter_start(&s->c, (int8_t)INT64_C(9));
    s->y1 = (int32_t)INT64_C(0);
}

void root_step(struct root *s, int32_t u1) {
    if (((int64_t)s->c.n <= (int64_t)u1) && ((int64_t)u1 < INT64_C(9))) {
        s->y1 = (int32_t)((int64_t)s->y1 + (int64_t)u1);
    } else {
        root_start(s);
    }
    if ((int64_t)s->y1 != INT64_C(1)) {
        s->y1 = (int32_t)((int64_t)s->y1 * INT64_C(2));
    }
    s->a[((int64_t)s->a[INT64_C(0)] + INT64_C(1))] = (int8_t)(int64_t)s->a[INT64_C(65534)];
}
";

// What is reported of it.
const EACH_FORM_AS_READ: &str = "\
Pick(\
Either(Compare(Gt, Read(Param(0)), Read(Param(1))), \
Not(Compare(Eq, Read(Param(0)), Neg(Literal(5))))), \
Read(Param(0)), Binary(Rem, Read(Param(1)), Literal(2)))
[Set { line: 18, field: 0, value: Pure(0, [Read(Param(0)), Literal(3)]) }]
[Call { line: 22, procedure: 0, target: Child(0), values: [Literal(9)] }, \
Set { line: 23, field: 1, value: Literal(0) }]
[If { line: 27, test: \
Both(Compare(Le, Read(Child(0, 0)), Read(Param(0))), \
Compare(Lt, Read(Param(0)), Literal(9))), \
yes: [Set { line: 28, field: 1, value: Binary(Add, Read(Own(1)), Read(Param(0))) }], \
no: [Call { line: 30, procedure: 1, target: Own, values: [] }] }, \
If { line: 32, test: Compare(Ne, Read(Own(1)), Literal(1)), \
yes: [Set { line: 33, field: 1, value: Binary(Mul, Read(Own(1)), Literal(2)) }], no: [] }, \
SetAt { line: 35, field: 2, index: Binary(Add, At(2, Literal(0)), Literal(1)), \
value: At(2, Literal(65534)) }]
Some(2) None
";

// A program whose output is its input.
const COPY: &[u8] = b"#include <stdint.h>

struct root {
    int32_t y1;
};

void root_start(struct root *s) {
}

void root_step(struct root *s, int32_t u1) {
    s->y1 = (int32_t)(int64_t)u1;
}
";

// What is reported of it.
const COPY_AS_READ: &str = "\
[]
[Set { line: 11, field: 0, value: Read(Param(0)) }]
Some(1) None
";

// The bodies of a program's pure functions and of its procedures, each on a line.
fn bodies(alloc: Global, program: &Program) -> Result<String, AllocError> {
    let mut bodies = String::new(alloc);
    for function in &program.pure {
        writeln!(bodies, "{:?}", function.body)?;
    }
    for procedure in &program.procedures {
        writeln!(bodies, "{:?}", procedure.body)?;
    }
    Ok(bodies)
}

// Reports of a program its bodies, and where `root_step` and `chosen` are among its procedures.
fn told(alloc: Global, checked: &Checked) -> Result<String, AllocError> {
    let mut told = bodies(alloc, checked.program())?;
    let step = checked.procedure(b"root_step");
    let chosen = checked.procedure(b"chosen");
    writeln!(told, "{step:?} {chosen:?}")?;
    Ok(told)
}

// What is reported of the program of a text, and the text as it is printed.
fn read_and_printed(alloc: Global, text: &[u8]) -> Result<(String, Vec<u8>), Fail> {
    let checked = read_c(alloc, text)?;
    let program = checked.program();
    let printed = print(alloc, program)?;
    Ok((told(alloc, &checked)?, printed))
}

#[test]
fn each_form_in_its_place(rt: HostRuntime) -> Result<(), Fail> {
    for &(text, as_read) in &[(EACH_FORM, EACH_FORM_AS_READ), (COPY, COPY_AS_READ)] {
        let (told, printed) = read_and_printed(rt.alloc(), text)?;
        assert_eq!(rt; (told.as_str(), printed.as_slice()), (as_read, text));
    }
    Ok(())
}
