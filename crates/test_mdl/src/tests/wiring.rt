mod faults;
mod order;
mod sources;

use base_refusals::refusal_text;
use mdl_reader::read_mdl;
use mdl_wiring::{Member, Shape, Wiring, WiringFault, wire};
use std::alloc::Global;
use std::test::Fail;
use test_models::{is_told, system_of};

/// A block that lines see.
fn member(name: &str, line: u32, shape: Shape) -> Member<'_> {
    Member {
        name: name.as_bytes(),
        line,
        shape,
    }
}

/// A block with so many inputs and an output.
fn computed(inputs: u8) -> Shape {
    Shape::Plain {
        inputs,
        output: true,
    }
}

/// Two Inports, their sum, and an Outport.
fn sum<'a>() -> [Member<'a>; 4] {
    [
        member("a", 10, Shape::Inport { port: 1 }),
        member("b", 20, Shape::Inport { port: 2 }),
        member("p", 30, computed(2)),
        member("y", 40, Shape::Outport { port: 1 }),
    ]
}

/// An Inport, a subsystem with an input, two outputs and both controls, and an Outport.
fn controlled<'a>() -> [Member<'a>; 3] {
    let shape = Shape::SubSystem {
        inputs: 1,
        outputs: 2,
        enable: true,
        trigger: true,
    };
    [
        member("a", 10, Shape::Inport { port: 1 }),
        member("s", 20, shape),
        member("y", 40, Shape::Outport { port: 1 }),
    ]
}

/// How these lines lead between the blocks.
fn wired(
    alloc: Global,
    members: &[Member],
    lines: &str,
    is_root: bool,
) -> Result<Result<Wiring, WiringFault>, Fail> {
    let text = system_of(alloc, lines)?;
    let file = read_mdl(alloc, text.as_bytes())?;
    let Some(system) = file.section(b"System") else {
        return Err(Fail::from("no System"));
    };
    Ok(wire(alloc, members, system, is_root))
}

/// What wiring answers: `lawful`, or the text of the refusal.
fn answer(alloc: Global, members: &[Member], lines: &str, is_root: bool) -> Result<Vec<u8>, Fail> {
    match wired(alloc, members, lines, is_root)? {
        Ok(_) => Ok(b"lawful\n".to_vec(alloc)?),
        Err(WiringFault::Refused(refusal)) => Ok(refusal_text(alloc, &refusal)?),
        Err(WiringFault::Memory) => Err(Fail::from("memory")),
    }
}

/// Compares what wiring answers with what is expected.
fn is_answered(
    alloc: Global,
    members: &[Member],
    lines: &str,
    is_root: bool,
    expected: &str,
) -> Result<(), Fail> {
    is_told(&answer(alloc, members, lines, is_root)?, expected, lines)
}
