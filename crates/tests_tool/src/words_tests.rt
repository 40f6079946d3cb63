//! What words of a command line are read as. Words that are refused, and those that ask for help, are tried on the built
//! program, by `tests/program`.

use model_asked::WorldKind;
use std::alloc::Global;
use std::net::{IpAddr, Ipv4Addr, Ipv6Addr};
use tool_work::{Ask, Endpoints, Keeping, Misuse, ask};

// The words of a line; none where memory is refused.
fn words_of<'a>(alloc: Global, line: &'a str) -> Vec<&'a str> {
    match line.split(' ').collect(alloc) {
        Ok(words) => words,
        Err(_) => Vec::new(alloc),
    }
}

// The world and the numbers of the config that the words of a line ask to play.
fn playing(alloc: Global, line: &str) -> Option<(WorldKind, u64, u64, u64)> {
    match ask(alloc, words_of(alloc, line).as_slice()) {
        Ok(Ask::Play(p)) => Some((p.config.world, p.config.m, p.config.k, p.config.limit)),
        _ => None,
    }
}

// A line, and the world and the numbers of the config that its words ask to play.
const PLAYS: [(&str, (WorldKind, u64, u64, u64)); 8] = [
    ("slotctl play", (WorldKind::Rename, 4, 4, 1000)),
    (
        "slotctl play --world splitter --m 16",
        (WorldKind::Splitter, 16, 4, 1000),
    ),
    (
        "slotctl play --world=grid --m=2",
        (WorldKind::Grid, 2, 4, 1000),
    ),
    (
        "slotctl play --limit 1 --world tree",
        (WorldKind::Tree, 4, 4, 1),
    ),
    (
        "slotctl play --m 16 --k 64 --limit 1000000 --world rename",
        (WorldKind::Rename, 16, 64, 1_000_000),
    ),
    (
        "slotctl play --m 64 --world tree",
        (WorldKind::Tree, 64, 4, 1000),
    ),
    (
        "slotctl play --m 1 --k 2 --limit 007",
        (WorldKind::Rename, 1, 2, 7),
    ),
    (
        "slotctl play --m +4 --k 04",
        (WorldKind::Rename, 4, 4, 1000),
    ),
];

#[test]
fn options_are_read(rt: HostRuntime) {
    for (line, want) in &PLAYS {
        assert!(rt; playing(rt.alloc(), line) == Some(*want), "{line}");
    }
}

// The seed, the identities, the steps, the runs, how many at once, and the world of what the words of a line ask to draw.
fn drawing(alloc: Global, line: &str) -> Option<(u64, u64, u64, u64, u64, WorldKind)> {
    match ask(alloc, words_of(alloc, line).as_slice()) {
        Ok(Ask::Draw(d)) => Some((d.seed, d.ids, d.steps, d.runs, d.jobs, d.config.world)),
        _ => None,
    }
}

// The threads, the rounds and the seed of what the words of a line ask to race.
fn racing(alloc: Global, line: &str) -> Option<(u64, u64, u64)> {
    match ask(alloc, words_of(alloc, line).as_slice()) {
        Ok(Ask::Race(r)) => Some((r.threads, r.rounds, r.seed)),
        _ => None,
    }
}

// The world, the port, the workers and the count of what the words of a line ask to serve.
fn serving(alloc: Global, line: &str) -> Option<(WorldKind, u64, u64, u64)> {
    match ask(alloc, words_of(alloc, line).as_slice()) {
        Ok(Ask::Serve(s)) => Some((s.config.world, s.port, s.workers, s.count)),
        _ => None,
    }
}

// Whether what is hosted is kept in a journal at this path, or in a log of these members, or nowhere where there is no text.
fn is_kept(keeping: &Keeping<'_>, text: &str) -> bool {
    match keeping {
        Keeping::Nothing => text.is_empty(),
        Keeping::Journal(path) | Keeping::NewJournal(path) => *path == text,
        Keeping::Log(log) => log.members == text,
    }
}

// The address, the port, the clients, the idle seconds and whether it is verbose, of what the words of a line ask to host; none where it
// is kept elsewhere.
fn hosting(alloc: Global, line: &str, kept: &str) -> Option<(IpAddr, Option<u16>, u64, u64, bool)> {
    match ask(alloc, words_of(alloc, line).as_slice()) {
        Ok(Ask::Host(h)) if is_kept(&h.keeping, kept) => {
            let Endpoints { address, port, .. } = h.endpoints;
            Some((address, port, h.clients, h.idle, h.verbose))
        }
        _ => None,
    }
}

// The port, the socket's mode where its path is `a/s`, and the port for those who watch, of what the words of a line ask to host.
fn reached(alloc: Global, line: &str) -> Option<(Option<u16>, Option<u64>, Option<u16>)> {
    match ask(alloc, words_of(alloc, line).as_slice()) {
        Ok(Ask::Host(h)) => {
            let Endpoints {
                port,
                unix,
                mode,
                metrics,
                ..
            } = h.endpoints;
            let mode = match unix {
                Some("a/s") => Some(mode),
                _ => None,
            };
            Some((port, mode, metrics))
        }
        _ => None,
    }
}

#[test]
fn drawings_and_servings_are_read(rt: HostRuntime) {
    let line =
        "slotctl draw --world tree --runs 1000 --jobs 64 --steps 1000000 --ids 64 --m 64 --seed 18446744073709551615";
    let drawn = drawing(rt.alloc(), line);
    assert!(rt; drawn == Some((u64::MAX, 64, 1_000_000, 1_000, 64, WorldKind::Tree)));
    let line = "slotctl serve --count 1000000 --workers 16 --port 65535 --world tree";
    let reported = [
        serving(rt.alloc(), "slotctl serve"),
        serving(rt.alloc(), line),
    ];
    let due = [
        Some((WorldKind::Rename, 0, 2, 1)),
        Some((WorldKind::Tree, 65_535, 16, 1_000_000)),
    ];
    assert!(rt; reported == due);
    // No word at all is refused, which no shell can give.
    let none: [&str; 0] = [];
    assert!(rt; matches!(ask(rt.alloc(), &none), Err(Misuse::Words(_))));
}

#[test]
fn races_are_read(rt: HostRuntime) {
    let most = "slotctl race --threads 64 --rounds 1000000 --seed 18446744073709551615";
    let reported = [
        racing(rt.alloc(), "slotctl race"),
        racing(rt.alloc(), most),
        racing(rt.alloc(), "slotctl race --threads 0"),
        racing(rt.alloc(), "slotctl race --threads 65"),
        racing(rt.alloc(), "slotctl race --rounds 1000001"),
    ];
    let due = [
        Some((4, 1, 1)),
        Some((64, 1_000_000, u64::MAX)),
        None,
        None,
        None,
    ];
    assert!(rt; reported == due);
}

// A line with no option of a hosting, one with each, and what it is kept in.
#[test]
fn hostings_are_read(rt: HostRuntime) {
    let line =
        "slotctl host --verbose --idle 31536000 --clients 1000000 --port 65535 --address ::1 --world tree";
    let log =
        "slotctl host --etcd 10.0.0.1:1,10.0.0.2:1 --prefix a/ --patience 3600 --export --change-terms";
    let reported = [
        hosting(rt.alloc(), "slotctl host", ""),
        hosting(rt.alloc(), line, ""),
        hosting(rt.alloc(), "slotctl host --journal a/b", "a/b"),
        hosting(rt.alloc(), "slotctl host --journal a/b --new", "a/b"),
        hosting(rt.alloc(), log, "10.0.0.1:1,10.0.0.2:1"),
        hosting(rt.alloc(), "slotctl host --hold connection", ""),
        hosting(rt.alloc(), "slotctl host --new", ""),
    ];
    let here = IpAddr::V4(Ipv4Addr::new(127, 0, 0, 1));
    let loopback = IpAddr::V6(Ipv6Addr::new(0, 0, 0, 0, 0, 0, 0, 1));
    let plain = Some((here, None, 10_000, 600, false));
    let verbose = Some((loopback, Some(65_535), 1_000_000, 31_536_000, true));
    let held = Some((here, None, 10_000, 30, false));
    assert!(rt; reported == [plain, verbose, plain, plain, plain, held, None]);
}

// What a hall is reached by, so far as the words name it.
#[test]
fn endpoints_are_read(rt: HostRuntime) {
    let reported = [
        reached(rt.alloc(), "slotctl host"),
        reached(rt.alloc(), "slotctl host --unix a/s"),
        reached(
            rt.alloc(),
            "slotctl host --unix a/s --mode 600 --port 7 --metrics 9",
        ),
        reached(rt.alloc(), "slotctl host --metrics 0"),
        reached(rt.alloc(), "slotctl host --unix a/s --mode 800"),
        reached(rt.alloc(), "slotctl host --metrics 65536"),
    ];
    let due = [
        Some((None, None, None)),
        Some((None, Some(0o660), None)),
        Some((Some(7), Some(0o600), Some(9))),
        Some((None, None, Some(0))),
        None,
        None,
    ];
    assert!(rt; reported == due);
}
