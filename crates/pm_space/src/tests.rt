//! Tests of the toy space.
use super::*;
use std::test::Fail;

#[test]
fn complete_where_it_reads_as_the_goal(rt: HostRuntime) -> Result<(), Fail> {
    let maker = ToyMaker::new(2, 2, 3);
    let mut space = maker.make(rt.alloc(), 0)?;
    assert_eq!(rt; space.width(), 2);
    assert!(rt; space.step(1)?);
    assert!(rt; !space.is_complete());
    assert!(rt; space.step(1)?);
    assert!(rt; space.is_complete());
    assert_eq!(rt; space.length(), 2);
    assert_eq!(rt; space.width(), 0);
    space.back();
    assert_eq!(rt; space.width(), 2);
    assert!(rt; space.step(0)?);
    assert!(rt; !space.is_complete());
    Ok(())
}
