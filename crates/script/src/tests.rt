// The lines of replies.
use crate::line::line_of;
use map_steps::reply::{Done, Grown, Reached};
use std::test::Fail;
use trays::tray::TRAY;
use words::refusal::Refusal;

const AT: Reached = Reached {
    mask: 5,
    exchanges: 1,
};

// A command may have more numbers than a tray.
#[test]
fn replies_with_a_line(rt: HostRuntime) -> Result<(), Fail> {
    for (reply, command, told) in [
        (Ok(Done::Start(AT)), [].as_slice(), "first 5 1"),
        (
            Ok(Done::Solve(AT)),
            [4, -2, 1, 8].as_slice(),
            "best 4 -2 1 8 5 1",
        ),
        (
            Ok(Done::Solve(AT)),
            [0; TRAY + 1].as_slice(),
            "best 0 0 0 0 0 0 0 0 0 0 0 0 0 0 0 0 0 0 0 5 1",
        ),
        (Err(Refusal::NoBest), [].as_slice(), "none 13 3 0"),
    ] {
        let Some(line) = line_of(reply, command) else {
            return Err(Fail::new("the reply has a line"));
        };
        let text = format!(in rt.alloc(); "{line}")?;
        assert_eq!(rt; text.as_str(), told);
    }
    Ok(())
}

#[test]
fn a_grow_has_no_line(rt: HostRuntime) {
    assert!(rt; line_of(Ok(Done::Grow(Grown::Listed)), &[]).is_none());
}
