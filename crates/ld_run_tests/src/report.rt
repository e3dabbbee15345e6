//! A long report, and the memory of one.

use ld_book::Book;
use ld_facts::facts;
use ld_report::report;
use ld_trace::split;
use std::test::Fail;

// Where memory is, a report of thousands of bytes is told as well as a short one, in memory of 1.3 times its length.
#[test]
fn a_long_report_is_told(rt: HostRuntime) -> Result<(), Fail> {
    let mut stream = String::new(rt.alloc());
    let mut text = String::from_str(
        rt.alloc(),
        "traces 700 refused 700 events 0 classes 0 dependencies 0\n",
    )?;
    for number in 0..700u32 {
        writeln!(stream, "trace t{number}\nlock t A")?;
        writeln!(text, "refused t{number} line {} BadVerb", 2 * number + 2)?;
    }
    text.push_str("clean\n")?;
    let sources = split(rt.alloc(), stream.as_bytes())?;
    let mut book = Book::new(rt.alloc());
    for source in sources.iter().rev() {
        assert!(rt; source.fits());
        let answer = book.add(facts(rt.alloc(), *source).expect(&rt, "the facts of a trace"));
        assert!(rt; answer.is_ok());
        drop(answer);
    }
    let told = report(rt.alloc(), &book).expect(&rt, "a report");
    assert_eq!(rt; told.as_slice(), text.as_bytes());
    assert!(rt; told.capacity() <= told.len() / 10 * 13);
    drop(book);
    Ok(())
}
