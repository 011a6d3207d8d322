use mdl_reader::read_mdl;
use mdl_table::fixed_step;
use std::alloc::Global;
use std::test::Fail;
use test_models::push_lines;

/// The step that a file writes, as a numerator and a denominator; its lines are parted by ` / `.
fn step_in(alloc: Global, file: &str) -> Result<Option<(u64, u64)>, Fail> {
    let mut text = String::new(alloc);
    push_lines(&mut text, file)?;
    match fixed_step(&read_mdl(alloc, text.as_bytes())?) {
        Some(step) => Ok(Some((step.num, step.den))),
        None => Ok(None),
    }
}

#[test]
fn steps_of_files(rt: HostRuntime) -> Result<(), Fail> {
    for &(file, step) in &[
        // A step is written anywhere but in the System.
        ("Model { / FixedStep 0.5 / System { / } / }", Some((1, 2))),
        (
            "Model { / A { / B { / FixedStep 0.5 / } / } / System { / } / }",
            Some((1, 2)),
        ),
        (
            "Model { / System { / FixedStep 3 / } / FixedStep 0.5 / }",
            Some((1, 2)),
        ),
        ("Model { / System { / FixedStep 0.5 / } / }", None),
        ("FixedStep 0.5 / Model { / System { / } / }", None),
        ("Data { / FixedStep 0.5 / }", None),
        // The first step decides.
        (
            "Model { / System { / } / FixedStep auto / FixedStep 0.5 / }",
            None,
        ),
        ("Model { / System { / } / FixedStep 0 / }", None),
        ("Model { / System { / } / FixedStep -0.5 / }", None),
        (
            "Model { / System { / } / FixedStep 1000000000 / }",
            Some((1_000_000_000, 1)),
        ),
        ("Model { / System { / } / FixedStep 1000000001 / }", None),
        ("Model { / System { / } / FixedStep 0.0000000001 / }", None),
    ] {
        assert_eq!(rt; step_in(rt.alloc(), file)?, step, "{file}");
    }
    Ok(())
}
