//! What the words of the command line ask for.

use clap::error::ErrorKind;
use ld_cli::workers;
use std::test::Fail;

#[test]
fn workers_are_those_asked_for(rt: HostRuntime) -> Result<(), Fail> {
    let alloc = rt.alloc();
    assert_eq!(rt; workers(alloc, &["lockcheck"])?, 4);
    assert_eq!(rt; workers(alloc, &["lockcheck", "--workers", "1"])?, 1);
    assert_eq!(rt; workers(alloc, &["lockcheck", "--workers=16"])?, 16);
    for count in 1..=16usize {
        let word = format!(in alloc; "{count}")?;
        let words = ["lockcheck", "--workers", word.as_str()];
        assert_eq!(rt; workers(alloc, &words)?, count);
    }
    Ok(())
}

// Under `rt try --test --fail-alloc N` one allocation is refused, and the answer says so.
#[test]
fn a_refused_growth_is_told(rt: HostRuntime) {
    match workers(rt.alloc(), &["lockcheck", "--workers", "2"]) {
        Ok(count) => assert_eq!(rt; count, 2),
        Err(error) => assert_eq!(rt; error.kind(), ErrorKind::OutOfMemory),
    }
}
