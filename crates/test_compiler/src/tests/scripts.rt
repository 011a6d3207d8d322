use tool_scripts::{BadCall, ReadCall, ScriptLine, ScriptWhy, last_call, next_call};

// How many inputs each of two functions takes.
const COUNTS: &[u32] = &[1, 1];

const MANY: BadCall = BadCall {
    line: u32::MAX,
    why: ScriptWhy::Many,
};

// A call of the first function, with its input.
const FIRST: ReadCall = ReadCall {
    line: ScriptLine::Out { function: 1 },
    count: 1,
};

#[test]
fn a_line_too_many_is_told(rt: HostRuntime) {
    let mut into = [0, 0];
    let next = next_call(b"out 1 4\n", 0, u32::MAX, COUNTS, &mut into);
    let last = last_call(b"x", u32::MAX, COUNTS, &mut into);
    assert_eq!(rt; (next, last), (Err(MANY), Err(MANY)));
}

#[test]
fn as_many_lines_as_may_be_are_read(rt: HostRuntime) {
    let mut into = [0, 0];
    let open = next_call(b"out 1 4", 0, u32::MAX, COUNTS, &mut into);
    let none = last_call(b"", u32::MAX, COUNTS, &mut into);
    let last = next_call(b"out 1 4\n", 0, u32::MAX - 1, COUNTS, &mut into);
    assert_eq!(rt;
        (open, none, last),
        (Ok(None), Ok(None), Ok(Some((FIRST, 8))))
    );
}
