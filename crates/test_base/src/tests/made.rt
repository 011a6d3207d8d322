use std::test::Fail;
use test_models::MADE;
use tool_generator::{generate, generate_trace};

#[test]
fn smallest_model_and_its_trace(rt: HostRuntime) -> Result<(), Fail> {
    let model = generate(rt.alloc(), 1, 1)?;
    let trace = generate_trace(rt.alloc(), 1, 1)?;
    assert_eq!(rt;
        (model.as_slice(), trace.as_slice()),
        (MADE.as_bytes(), b"137\n-459\n183\n-339\n".as_slice())
    );
    Ok(())
}
