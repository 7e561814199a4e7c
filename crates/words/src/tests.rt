// The text of a refusal.
use crate::refusal::Refusal;
use std::test::Fail;

#[test]
fn crossed_range_is_printed(rt: HostRuntime) -> Result<(), Fail> {
    let text = format!(in rt.alloc(); "{}", Refusal::Range(2))?;
    assert_eq!(rt; text.as_str(), "6 2 2");
    Ok(())
}
