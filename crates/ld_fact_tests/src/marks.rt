//! Marks of great numbers.

use ld_tables::MarkedSet;
use std::test::Fail;

// Only want of memory may keep a number from being marked, and here there is memory.
#[test]
fn a_great_number_is_marked(rt: HostRuntime) -> Result<(), Fail> {
    let mut marked = MarkedSet::new(rt.alloc());
    marked.add(5_000_000)?;
    assert!(rt; marked.has(5_000_000));
    assert!(rt; !marked.has(4_999_999));
    drop(marked);
    Ok(())
}
