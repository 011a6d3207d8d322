mod certificate;
mod cluster;
mod profile;
mod report;
mod schedule;

use std::test::Fail;

/// Fails where what is reported of some text isn't what is expected.
fn is_told(told: &[u8], expected: &str, text: &str) -> Result<(), Fail> {
    if told == expected.as_bytes() {
        return Ok(());
    }
    let told = str::from_utf8(told)?;
    Err(Fail::new(format_args!("{told:?} is told, not {expected:?}, of {text}")))
}
