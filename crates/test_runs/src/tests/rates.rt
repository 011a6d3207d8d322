use super::resolved;
use diagram_times::hit;
use std::alloc::Global;
use std::test::Fail;

/// An input each 1/50 second, one each 1/75 from 1/150 on, and their sum.
pub(super) const TWO_RATES: &str = "Inport a OutDataTypeStr=int32 SampleTime=1/50; \
     Block { / BlockType Inport / Name b / Port 2 / OutDataTypeStr int32 / SampleTime [1/75 1/150] / }; \
     Sum p; Outport o; a 1 > p 1; b 1 > p 2; p 1 > o 1";

/// Whether a row of the model with these rates is hit in each of the first six ticks.
fn hits(alloc: Global, row: usize) -> Result<[bool; 6], Fail> {
    let times = resolved(alloc, TWO_RATES)?.times;
    let time = *times.run.get(row).ok_or("the table has no such row")?;
    Ok([
        hit(time, 0),
        hit(time, 1),
        hit(time, 2),
        hit(time, 3),
        hit(time, 4),
        hit(time, 5),
    ])
}

#[test]
fn ticks_of_two_rates(rt: HostRuntime) -> Result<(), Fail> {
    for &(row, wanted) in &[
        (0, [true, false, false, true, false, false]),
        (1, [false, true, false, true, false, true]),
        (2, [true, true, true, true, true, true]),
    ] {
        assert_eq!(rt; hits(rt.alloc(), row)?, wanted, "{row}");
    }
    Ok(())
}
