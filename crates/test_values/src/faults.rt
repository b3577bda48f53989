//! The words of faults that the program never prints, so no clause tells them.

use match_board::TileFault;
use std::test::Fail;
use xcc_form::FormFault;

#[test]
fn words_of_faults(rt: HostRuntime) -> Result<(), Fail> {
    let (tile, form) = (TileFault::BadColour, FormFault::NotASolution);
    let said = format!(in rt.alloc(); "{tile}, {form}")?;
    assert!(rt; said.as_str() == "bad-colour, not a solution");
    Ok(())
}
