//! The worked certificate of two assets.

use crate::worked::is_worked_out;
use std::test::Fail;

#[test]
fn worked_certificate_is_valid(rt: HostRuntime) -> Result<(), Fail> {
    assert!(rt; is_worked_out());
    Ok(())
}
