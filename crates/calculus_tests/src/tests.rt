//! Each script against the text that it is to print.
use crate::rows::ROWS;
use crate::script::printed;
use std::test::Fail;

#[test]
fn scripts_print_what_they_should(rt: HostRuntime) -> Result<(), Fail> {
    for (script, expected) in ROWS {
        let text = printed(rt.alloc(), script)?;
        assert_eq!(rt; text.as_slice(), *expected);
    }
    Ok(())
}
