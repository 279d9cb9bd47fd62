use crate::run::run;
use std::test::Fail;

#[test]
fn two_threads(rt: HostRuntime) -> Result<(), Fail> {
    let numbers = run(&rt, rt.alloc(), 2, 2000)?;
    assert_eq!(rt; numbers.len(), 4000);
    Ok(())
}

#[test]
fn four_threads(rt: HostRuntime) -> Result<(), Fail> {
    let numbers = run(&rt, rt.alloc(), 4, 1000)?;
    assert_eq!(rt; numbers.len(), 4000);
    Ok(())
}
