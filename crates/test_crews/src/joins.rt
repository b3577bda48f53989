use crate::meetings::Meeting;
use std::test::Fail;
use steal_crew::both;

#[test]
fn halves_at_once(rt: HostRuntime) -> Result<(), Fail> {
    let meeting = Meeting::new();
    match both(&rt, || Ok(meeting.meets(true)), || Ok(meeting.meets(false)))? {
        (true, true) => Ok(()),
        _ => Err(Fail::new("no other thread came")),
    }
}
