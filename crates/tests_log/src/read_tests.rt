//! Reads over a log that other front ends write too.

use crate::persister_tests::reported;
use crate::stay_doubles::{FrontEnd, Site, competing, reading, says};

/// What one front end is told to put, and what another is to say of it then.
const PUTS: [(&[u8], &[u8]); 3] = [
    (b"put 1 5\n", b"value 5\nowner none\nrefused 8\n"),
    (b"get 1\nput 1 6\n", b"value 6\nowner none\nrefused 8\n"),
    (b"enter 2\nput 1 7\n", b"value 7\nowner none\nrefused 8\n"),
];

// A front end whose stay holds a number.
fn holding(site: &Site) -> Option<FrontEnd<'_>> {
    let mut front = reading(site, b'a')?;
    if says(site, &mut front, b"enter 1\nprobe 1\n", b"ok\ngot 1\n") {
        return Some(front);
    }
    None
}

// Whether each read of one front end tells what another was answered before. Tells how many entries there are then.
fn read_after_puts(site: &Site) -> Option<usize> {
    let mut one = holding(site)?;
    let mut other = reading(site, b'b')?;
    for (put, read) in &PUTS {
        let _ = reported(site.alloc, &mut one, put).ok()??;
        if !says(site, &mut other, b"get 1\nowner 1\nget 3\n", read) {
            return None;
        }
    }
    Some(site.entries())
}

/// The line of the config, the lines of `holding`, and the three that put a value.
#[test]
fn reads_tell_what_stands_and_are_no_entry(rt: HostRuntime) {
    let entries = read_after_puts(&Site::new(rt.alloc()));
    assert!(rt; entries == Some(5), "{entries:?}");
}

// How many compete where a front end is asked for nothing but who does, and how many entries there are then.
fn asked_for_nothing(site: &Site) -> Option<(usize, usize)> {
    let mut other = reading(site, b'b')?;
    let _one = holding(site)?;
    let _ = reported(site.alloc, &mut other, b"").ok()??;
    Some((competing(&other), site.entries()))
}

#[test]
fn no_lines_read_the_log_to_its_end(rt: HostRuntime) {
    let told = asked_for_nothing(&Site::new(rt.alloc()));
    assert!(rt; told == Some((1, 2)), "{told:?}");
}

// What a read is answered while the store does not answer, and then.
fn read_while_silent(site: &Site) -> Option<bool> {
    let mut front = holding(site)?;
    let silent = site.log.try_borrow().ok()?;
    let lost = reported(site.alloc, &mut front, b"get 1\n").ok()?;
    drop(silent);
    Some(lost.is_none() && says(site, &mut front, b"get 1\n", b"value 0\n"))
}

#[test]
fn reads_wait_for_the_store(rt: HostRuntime) {
    assert!(rt; read_while_silent(&Site::new(rt.alloc())) == Some(true));
}
