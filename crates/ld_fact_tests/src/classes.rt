//! Names and their numbers, where memory is refused. Under `rt try --test --fail-alloc N` one allocation is
//! refused, another for each N: the answers are then as before, and the call made again answers `Ok`.

use ld_class::{ClassName, Classes, MOST_NAMES};
use ld_tables::{MOST_KNOWN_TASKS, TaskNames};

/// The class of this name, and not one of its subclasses.
fn class(name: &[u8]) -> ClassName<'_> {
    ClassName { name, sub: 0 }
}

#[test]
fn a_refused_growth_changes_nothing(rt: HostRuntime) {
    // Names of 1 to 200 bytes, for which the set grows six times.
    let text = [b'x'; 200];
    let mut classes = Classes::new(rt.alloc());
    for id in 0..200u32 {
        let name = class(&text[..=id as usize]);
        assert!(rt; classes.len() < MOST_NAMES);
        let mut answer = classes.intern(name);
        if answer.is_err() {
            assert_eq!(rt; classes.find(name), None);
            assert_eq!(rt; classes.len(), id as usize);
            for known in 0..id {
                let known_name = class(&text[..=known as usize]);
                assert_eq!(rt; classes.find(known_name), Some(known));
                assert_eq!(rt; classes.name(known), known_name);
            }
            answer = classes.intern(name);
        }
        assert_eq!(rt; answer, Ok(id));
    }
    assert_eq!(rt; classes.len(), 200);
    drop(classes);
}

// Names of tasks. A name that an earlier trace had takes no memory, wherever it stands among those of this one.
#[test]
fn a_refused_growth_loses_no_task(rt: HostRuntime) {
    let text = [b'x'; 200];
    let mut tasks = TaskNames::new(rt.alloc());
    for id in 0..200u32 {
        let name = &text[..=id as usize];
        assert!(rt; tasks.len() < MOST_NAMES - MOST_KNOWN_TASKS);
        let mut answer = tasks.intern(name);
        if answer.is_err() {
            assert_eq!(rt; tasks.find(name), None);
            for known in 0..id {
                assert_eq!(rt; tasks.find(&text[..=known as usize]), Some(known));
            }
            assert_eq!(rt; tasks.len(), id as usize);
            answer = tasks.intern(name);
        }
        assert_eq!(rt; answer, Ok(id));
    }
    assert_eq!(rt; tasks.len(), 200);
    tasks.clear();
    for id in 0..200u32 {
        let name = &text[id as usize..];
        assert_eq!(rt; tasks.find(name), None);
        assert!(rt; tasks.len() < MOST_NAMES - MOST_KNOWN_TASKS);
        assert_eq!(rt; tasks.intern(name), Ok(id));
    }
    drop(tasks);
}
