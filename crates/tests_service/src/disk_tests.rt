//! A file as a disk. A disk in memory, of which each clause is proved, is tried with the journals on it.

use service_journal::{Disk, FileDisk, FileFault};
use std::alloc::Global;
use std::fs;
use std::test::Fail;

/// Where a test's file lies.
const PATH: &str = "file_disk_of_a_test";

/// Whether bytes stand alone on a disk where they took the place of others.
fn is_replaced<D: Disk>(alloc: Global, disk: &mut D) -> bool {
    let written = disk.append(b"one\n").is_ok()
        && disk.sync().is_ok()
        && disk.replace(alloc, b"two\nthree\n").is_ok();
    match disk.read(alloc) {
        Ok(bytes) => written && bytes.as_slice() == b"two\nthree\n".as_slice(),
        Err(_) => false,
    }
}

#[test]
fn a_file_is_replaced_and_stays_locked(rt: HostRuntime) -> Result<(), Fail> {
    let _ = fs::remove_file(&rt, PATH);
    let is_missing = matches!(FileDisk::open(&rt, PATH), Err(FileFault::Missing));
    let mut disk = FileDisk::create(&rt, PATH).map_err(|_| "not made")?;
    let is_there_once = matches!(FileDisk::create(&rt, PATH), Err(FileFault::Exists));
    let is_replaced = is_replaced(rt.alloc(), &mut disk);
    let is_locked = matches!(FileDisk::open(&rt, PATH), Err(FileFault::InUse));
    let is_appended = disk.append(b"four\n").is_ok();
    let is_there = match fs::read(&rt, PATH) {
        Ok(bytes) => bytes.as_slice() == b"two\nthree\nfour\n".as_slice(),
        Err(_) => false,
    };
    let _ = fs::remove_file(&rt, PATH);
    assert!(rt; is_missing && is_there_once && is_replaced && is_locked && is_appended && is_there);
    Ok(())
}
