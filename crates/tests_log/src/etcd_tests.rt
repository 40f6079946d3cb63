//! The store over etcd's gateway, by texts in place of members.

use crate::log_doubles::Script;
use service_log::etcd::EtcdStore;
use service_log::{Append, Put, Store, StoreFault};
use std::alloc::{AllocError, Global};

// The answer to a transaction that put its value.
const WRITTEN: &[u8] =
    b"HTTP/1.1 200 OK\r\nConnection: close\r\nContent-Length: 30\r\n\r\n{\"header\":{},\"succeeded\":true}";

// The answer to one that did not.
const TAKEN: &[u8] =
    b"HTTP/1.1 200 OK\r\nConnection: close\r\nContent-Length: 13\r\n\r\n{\"header\":{}}";

// `hi` at the place 42 under `log/`.
const FOUND: &[u8] = b"HTTP/1.1 200 OK\r\nConnection: close\r\nContent-Length: 75\r\n\r\n\
        {\"header\":{},\"kvs\":[{\"key\":\"bG9nLzAwMDAwMDAwMDAwMDAwNDI=\",\"value\":\"aGk=\"}]}";

// `hi` at the place 42 and `ho` at the place 43.
const FOUND_TWO: &[u8] = b"HTTP/1.1 200 OK\r\nConnection: close\r\nContent-Length: 129\r\n\r\n\
        {\"header\":{},\"kvs\":[{\"key\":\"bG9nLzAwMDAwMDAwMDAwMDAwNDI=\",\"value\":\"aGk=\"},{\"key\":\"bG9nLzAwMDAwMDAwMDAwMDAwNDM=\",\"value\":\"aG8=\"}]}";

// `ho` at the place 43, and at the place 42.
const FOUND_NEXT: &[u8] = b"HTTP/1.1 200 OK\r\nConnection: close\r\nContent-Length: 75\r\n\r\n\
        {\"header\":{},\"kvs\":[{\"key\":\"bG9nLzAwMDAwMDAwMDAwMDAwNDM=\",\"value\":\"aG8=\"}]}";

const CHANGED: &[u8] = b"HTTP/1.1 200 OK\r\nConnection: close\r\nContent-Length: 75\r\n\r\n\
        {\"header\":{},\"kvs\":[{\"key\":\"bG9nLzAwMDAwMDAwMDAwMDAwNDI=\",\"value\":\"aG8=\"}]}";

// A member of an etcd whose quota is used up.
const NO_SPACE: &[u8] =
    b"HTTP/1.1 429 Too Many Requests\r\nContent-Length: 62\r\n\r\n{\"error\":\"etcdserver: mvcc: database space exceeded\",\"code\":8}";

// Something that is no answer.
const OTHER: &[u8] = b"HTTP/1.1 200 OK\r\nConnection: close\r\nContent-Length: 2\r\n\r\n{}";

// Neither of these is an answer.
const SHORT: &[u8] = b"HTTP";

const NO_LETTER: &[u8] = b"\xff";

// A member that says nothing, and one that does not serve.
const SILENT: &[u8] = b"";

const AWAY: &[u8] = b"HTTP/1.1 503 No\r\nContent-Length: 0\r\n\r\n";

// What is noted where all entries below the place 100 were given up, and were deleted before the place 50.
const GONE: &[u8] = b"HTTP/1.1 200 OK\r\nConnection: close\r\nContent-Length: 123\r\n\r\n\
        {\"header\":{},\"kvs\":[{\"key\":\"bG9nL2dvbmUAMDAwMDAwMDAwMDAwMDA5OQ==\",\"value\":\"MDAwMDAwMDAwMDAwMDEwMDAwMDAwMDAwMDAwMDAwNTA=\"}]}";

// The answer to an append that came to stand behind another entry, at the place 44.
const LANDED: &[u8] = b"HTTP/1.1 200 OK\r\nConnection: close\r\nContent-Length: 213\r\n\r\n\
        {\"header\":{},\"succeeded\":true,\"responses\":[{\"response_txn\":{}},\
        {\"response_range\":{\"header\":{},\"kvs\":[{\"key\":\"bG9nLzAwMDAwMDAwMDAwMDAwNDM=\",\"value\":\"aGE=\"},{\"key\":\"bG9nLzAwMDAwMDAwMDAwMDAwNDQ=\",\"value\":\"aG8=\"}]}}]}";

// The answer to one that found each of its places taken.
const FULL: &[u8] = b"HTTP/1.1 200 OK\r\nConnection: close\r\nContent-Length: 213\r\n\r\n\
        {\"header\":{},\"succeeded\":true,\"responses\":[{\"response_txn\":{}},\
        {\"response_range\":{\"header\":{},\"kvs\":[{\"key\":\"bG9nLzAwMDAwMDAwMDAwMDAwNDc=\",\"value\":\"aGE=\"},{\"key\":\"bG9nLzAwMDAwMDAwMDAwMDAwNDg=\",\"value\":\"aGU=\"}]}}]}";

// `ho` at the place 44.
const FOUND_OWN: &[u8] = b"HTTP/1.1 200 OK\r\nConnection: close\r\nContent-Length: 75\r\n\r\n\
        {\"header\":{},\"kvs\":[{\"key\":\"bG9nLzAwMDAwMDAwMDAwMDAwNDQ=\",\"value\":\"aG8=\"}]}";

// The answer to an append where the fence was changed.
const REFUSED: &[u8] = b"HTTP/1.1 200 OK\r\nConnection: close\r\nContent-Length: 110\r\n\r\n\
        {\"header\":{},\"responses\":[{\"response_range\":{\"header\":{},\"kvs\":[{\"key\":\"bG9nL2ZlbmNl\",\"mod_revision\":\"7\"}]}}]}";

/// Texts, of which each exchange takes the next: for what is put and found; for what stands behind and is read at once; a member that says
/// nothing and one that does not serve, behind which the next is asked; wrong answers, behind which the one place is asked, and what was given up.
const TEXTS: [&[u8]; 19] = [
    WRITTEN, TAKEN, FOUND, FOUND, FOUND_TWO, FOUND_NEXT, FOUND_TWO, SILENT, AWAY, WRITTEN, OTHER,
    FOUND, TAKEN, TAKEN, FOUND, FOUND, TAKEN, SHORT, NO_LETTER,
];

/// A store over the texts.
fn store<'a>(alloc: Global, texts: &'a [&'a [u8]]) -> Result<EtcdStore<Script<'a>>, AllocError> {
    let prefix = String::from_str(alloc, "log/")?;
    Ok(EtcdStore::new(alloc, Script { texts, dialed: 0 }, prefix))
}

/// What a get of a place answers, and whether the entry has these bytes then: those of before, where nothing is found.
fn found(
    etcd: &mut EtcdStore<Script<'_>>,
    entry: &mut Vec<u8>,
    place: u64,
    bytes: &[u8],
) -> (Result<bool, StoreFault>, bool) {
    (etcd.get(place, entry), entry.as_slice() == bytes)
}

/// Whether puts and gets over those texts answer as they should.
fn answers(etcd: &mut EtcdStore<Script<'_>>, entry: &mut Vec<u8>) -> bool {
    let put = [etcd.put(42, b"hi"), etcd.put(42, b"ho")];
    let got = [
        found(etcd, entry, 42, b"hi"),
        found(etcd, entry, 43, b"hi"),
        found(etcd, entry, 42, b"hi"),
        found(etcd, entry, 43, b"ho"),
        found(etcd, entry, 44, b"ho"),
        found(etcd, entry, 42, b"hi"),
    ];
    let asked = [etcd.put(42, b"hi"), etcd.put(42, b"hi")];
    let passed_over = found(etcd, entry, 41, b"hi");
    let wrong = (found(etcd, entry, 41, b"hi"), etcd.put(42, b"hi"));
    put == [Ok(Put::Written), Ok(Put::Taken)]
        && got
            == [
                (Ok(true), true),
                (Ok(false), true),
                (Ok(true), true),
                (Ok(true), true),
                (Ok(false), true),
                (Ok(true), true),
            ]
        && asked == [Ok(Put::Written), Err(StoreFault::Wrong)]
        && passed_over == (Ok(false), true)
        && wrong == ((Err(StoreFault::Wrong), true), Err(StoreFault::Lost))
}

#[test]
fn answers_are_read(rt: HostRuntime) -> Result<(), AllocError> {
    let mut etcd = store(rt.alloc(), &TEXTS)?;
    let mut entry = Vec::new(rt.alloc());
    assert!(rt; answers(&mut etcd, &mut entry));
    Ok(())
}

/// What a get answers where each text is this, and whether nothing is found.
fn got(alloc: Global, text: &[u8]) -> Result<(Result<bool, StoreFault>, bool), AllocError> {
    let texts = [text; 4];
    let mut etcd = store(alloc, &texts)?;
    let mut entry = Vec::new(alloc);
    Ok(found(&mut etcd, &mut entry, 42, b""))
}

#[test]
fn an_answer_that_is_cut_is_none(rt: HostRuntime) {
    for end in 0..FOUND.len() {
        let got = got(rt.alloc(), &FOUND[..end]);
        assert!(rt; got == Ok((Err(StoreFault::Lost), true)), "cut at {end}");
    }
}

/// What a get answers of the place behind `hi`, where this text is the answer, and that is told of what was given up.
fn got_behind(
    alloc: Global,
    text: &[u8],
    gone: &[u8],
) -> Result<Result<bool, StoreFault>, AllocError> {
    let texts = [FOUND, text, gone];
    let mut etcd = store(alloc, &texts)?;
    let mut entry = Vec::new(alloc);
    let _ = etcd.get(42, &mut entry);
    Ok(etcd.get(43, &mut entry))
}

#[test]
fn a_log_that_went_back_is_reported(rt: HostRuntime) {
    assert!(rt; got_behind(rt.alloc(), FOUND, GONE) == Ok(Ok(false)));
    assert!(rt; got_behind(rt.alloc(), FOUND_TWO, GONE) == Ok(Ok(true)));
    assert!(rt; got_behind(rt.alloc(), TAKEN, TAKEN) == Ok(Err(StoreFault::WentBack)));
    assert!(rt; got_behind(rt.alloc(), CHANGED, TAKEN) == Ok(Err(StoreFault::WentBack)));
}

/// What a get answers of a place where nothing is, where that is told of what was given up; and of what is deleted then.
fn got_of_none(alloc: Global, place: u64) -> Result<Result<bool, StoreFault>, AllocError> {
    let texts = [TAKEN, GONE];
    let mut etcd = store(alloc, &texts)?;
    let mut entry = Vec::new(alloc);
    Ok(etcd.get(place, &mut entry))
}

#[test]
fn what_was_given_up_is_reported(rt: HostRuntime) {
    assert!(rt; got_behind(rt.alloc(), TAKEN, GONE) == Ok(Err(StoreFault::Trimmed)));
    assert!(rt; got_of_none(rt.alloc(), 1) == Ok(Err(StoreFault::Trimmed)));
    assert!(rt; got_of_none(rt.alloc(), 42) == Ok(Err(StoreFault::Trimmed)));
    assert!(rt; got_of_none(rt.alloc(), 101) == Ok(Ok(false)));
    assert!(rt; got_of_none(rt.alloc(), 0) == Ok(Ok(false)));
}

#[test]
fn entries_are_given_up_in_parts(rt: HostRuntime) -> Result<(), AllocError> {
    let texts = [GONE, TAKEN, GONE, WRITTEN, GONE, WRITTEN, GONE, OTHER];
    let mut etcd = store(rt.alloc(), &texts)?;
    assert!(rt; etcd.trimmed() == Ok(100));
    assert!(rt; etcd.trimmed() == Ok(0));
    assert!(rt; etcd.trim(1) == Ok(true));
    assert!(rt; etcd.trim(200) == Ok(false));
    assert!(rt; etcd.trim(150) == Ok(true));
    assert!(rt; etcd.trim(50) == Ok(true));
    assert!(rt; etcd.trim(50) == Err(StoreFault::Wrong));
    Ok(())
}

#[test]
fn a_quota_that_is_used_up_is_reported(rt: HostRuntime) -> Result<(), AllocError> {
    let texts = [NO_SPACE];
    let mut etcd = store(rt.alloc(), &texts)?;
    assert!(rt; etcd.put(42, b"hi") == Err(StoreFault::NoSpace));
    Ok(())
}

/// Whether appends over these texts answer as they should: one that finds its place taken, and one that comes to stand behind
/// another entry; one whose answer is lost, behind which the fence is changed and one place is offered; one that is refused,
/// since the fence was changed; and one that finds each place taken.
fn appends(etcd: &mut EtcdStore<Script<'_>>, entry: &mut Vec<u8>) -> bool {
    let taken = (etcd.append(42, b"ho"), found(etcd, entry, 42, b"hi"));
    let behind = (etcd.append(43, b"ho"), found(etcd, entry, 43, b"ha"));
    let lost = (etcd.append(45, b"hu"), found(etcd, entry, 45, b"ha"));
    let again = etcd.append(45, b"hu");
    let refused = etcd.append(46, b"hy");
    let full = (etcd.append(47, b"hu"), found(etcd, entry, 47, b"ha"));
    taken == (Ok(Append::Nowhere), (Ok(true), true))
        && behind == (Ok(Append::At(44)), (Ok(true), true))
        && lost == (Err(StoreFault::Lost), (Ok(false), true))
        && again == Ok(Append::At(45))
        && refused == Ok(Append::At(46))
        && full == (Ok(Append::Nowhere), (Ok(true), true))
}

#[test]
fn an_append_whose_answer_is_lost_is_parted_from_later_ones(
    rt: HostRuntime,
) -> Result<(), AllocError> {
    let texts = [
        TAKEN, FOUND, LANDED, SILENT, FOUND_OWN, TAKEN, WRITTEN, REFUSED, WRITTEN, FULL,
    ];
    let mut etcd = store(rt.alloc(), &texts)?;
    let mut entry = Vec::new(rt.alloc());
    assert!(rt; appends(&mut etcd, &mut entry));
    Ok(())
}
