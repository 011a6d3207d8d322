use super::{controlled, sum, wired};
use mdl_wiring::{Member, Source};
use std::alloc::Global;
use std::test::Fail;

/// The output of the first block.
const A: Source = Source {
    member: 0,
    output: 1,
};

/// That of the second.
const B: Source = Source {
    member: 1,
    output: 1,
};

/// That of the third.
const P: Source = Source {
    member: 2,
    output: 1,
};

/// The second output of the second block.
const S2: Source = Source {
    member: 1,
    output: 2,
};

/// Ports in another order than they have.
const SUMMING: &str = "p 1 > y 1; b 1 > p 2; a 1 > p 1";

/// The blocks of a sum, and what each reads: its ports in their order, whatever the order of the lines.
const READ_BY_A_SUM: &[(usize, &[Source])] = &[
    // a block without inputs
    (0, &[]),
    (2, &[A, B]),
    (3, &[P]),
    // one beyond the last
    (4, &[]),
];

/// A line with branches to the input and both controls.
const CONTROLLING: &str =
    "s 2 > y 1; Line { / SrcBlock a / SrcPort 1 / Branch { / DstBlock s / DstPort trigger / } / \
    Branch { / Branch { / DstBlock s / DstPort enable / } / DstBlock s / DstPort 1 / } / }";

/// The same of a subsystem, whose controls are after the input, first the enable, and of what reads it.
const READ_BY_A_SUBSYSTEM: &[(usize, &[Source])] = &[(1, &[A, A, A]), (2, &[S2])];

/// What a block reads where lines lead between these.
fn sources_of(
    alloc: Global,
    members: &[Member],
    lines: &str,
    member: usize,
) -> Result<Vec<Source>, Fail> {
    match wired(alloc, members, lines, true)? {
        Ok(wiring) => Ok(wiring.sources(member).to_vec(alloc)?),
        Err(_) => Err(Fail::from("refused")),
    }
}

#[test]
fn inputs_and_controls_read(rt: HostRuntime) -> Result<(), Fail> {
    for &(member, sources) in READ_BY_A_SUM {
        let read = sources_of(rt.alloc(), &sum(), SUMMING, member)?;
        assert_eq!(rt; read.as_slice(), sources, "{member}");
    }
    for &(member, sources) in READ_BY_A_SUBSYSTEM {
        let read = sources_of(rt.alloc(), &controlled(), CONTROLLING, member)?;
        assert_eq!(rt; read.as_slice(), sources, "{member}");
    }
    Ok(())
}
