//! Front ends over a log in which others have written.

use crate::front_tests::{answers, config};
use crate::log_doubles::{Lossy, Tries};
use service_follow::{HallTerms, LogFault, LogPersister, Pause, ReplyQueue};
use service_hall::{Reads, Rules};
use service_log::{MemoryStore, Store, StoreFault};
use service_loop::{Persist, Prefetch};
use std::alloc::Global;

/// How the log of a hall of the config begins.
const FIRST: &[u8] = b"beglushan hall 1 world rename m 4 k 4 limit 1000\n";

/// How that of a hall for three begins.
const OF_THREE: &[u8] = b"beglushan hall 1 world rename m 3 k 4 limit 1000\n";

/// For how long stays go on.
const TERMS: HallTerms = HallTerms::Forever;

/// What another front end has written behind it.
const OTHERS: &[u8] = b"another 1\nenter 1\nprobe 1\n";

// A store in which these entries stand.
fn written(alloc: Global, entries: &[&[u8]]) -> Result<MemoryStore, StoreFault> {
    let mut store = MemoryStore::new(alloc);
    for place in 0..entries.len() {
        store.put(place as u64, entries[place])?;
    }
    Ok(store)
}

// A front end over a log that begins so, whose store loses each so many answers, and which asks again so often.
fn opened(
    alloc: Global,
    entries: &[&[u8]],
    every: u64,
    most: u64,
) -> Result<LogPersister<Lossy, Tries>, LogFault> {
    let Some(config) = config() else {
        return Err(LogFault::NoNames);
    };
    let Ok(store) = written(alloc, entries) else {
        return Err(LogFault::Memory);
    };
    let lossy = Lossy::new(store, every);
    let tries = Tries { most, left: 0 };
    LogPersister::open(alloc, lossy, tries, config, [b'a'; 32], TERMS)
}

// What a front end answers to lines, as a turn of its loop does; none where they are lost.
pub(crate) fn reported<S: Store, T: Pause>(
    alloc: Global,
    persister: &mut LogPersister<S, T>,
    lines: &[u8],
) -> Result<Option<Vec<u8>>, LogFault> {
    let mut reply_queue = ReplyQueue::new(alloc);
    if persister.prefetch(&mut reply_queue, lines)? == Prefetch::Lost {
        return Ok(None);
    }
    let Some(answer) = answers(alloc, &mut reply_queue, lines) else {
        return Err(LogFault::Memory);
    };
    persister.persist(&mut reply_queue)?;
    Ok(Some(answer))
}

/// A front end as `opened` opens it; what it answers to lines, one after the other; and how many entries and events it has then.
#[derive(Drop)]
struct Transcript {
    title: &'static str,
    entries: &'static [&'static [u8]],
    every: u64,
    most: u64,
    reported: &'static [(&'static [u8], Option<&'static [u8]>)],
    then: (u64, usize),
}

// Whether a front end goes so.
fn goes_so(
    alloc: Global,
    persister: &mut LogPersister<Lossy, Tries>,
    transcript: &Transcript,
) -> bool {
    for (lines, want) in transcript.reported {
        match reported(alloc, persister, lines) {
            Ok(answer) if answer.as_deref() == *want => {}
            _ => return false,
        }
    }
    persister.len() == transcript.then.0 && persister.hall().len() == transcript.then.1
}

// Whether the one that is opened does.
fn goes(alloc: Global, transcript: &Transcript) -> bool {
    match opened(alloc, transcript.entries, transcript.every, transcript.most) {
        Ok(mut persister) => goes_so(alloc, &mut persister, transcript),
        Err(_) => false,
    }
}

const TRANSCRIPTS: [Transcript; 3] = [
    Transcript {
        title: "one that starts late catches up",
        entries: &[FIRST, OTHERS],
        every: 0,
        most: 0,
        reported: &[(
            b"enter 1\nenter 2\nprobe 2\nprobe 2\n",
            Some(b"refused 9\nok\nmissed\ngot 2\n"),
        )],
        then: (3, 5),
    },
    Transcript {
        title: "lines whose answer is lost stand once",
        entries: &[FIRST],
        every: 2,
        most: 1,
        reported: &[(b"enter 1\n", Some(b"ok\n"))],
        then: (2, 1),
    },
    Transcript {
        title: "lines that are not answered may stand",
        entries: &[FIRST],
        every: 2,
        most: 0,
        reported: &[(b"enter 1\n", None), (b"enter 1\n", Some(b"refused 9\n"))],
        then: (3, 1),
    },
];

#[test]
fn front_ends_over_a_log_of_others(rt: HostRuntime) {
    for transcript in &TRANSCRIPTS {
        assert!(rt; goes(rt.alloc(), transcript), "{}", transcript.title);
    }
}

/// What two other front ends have written: one whose reads are plain, and one whose reads are logged.
const READERS: [&[u8]; 4] = [
    FIRST,
    OTHERS,
    b"0123456789abcdef0123456789abcdef 1000000000000000 plain\nput 1 7\nget 1\nget 2\n",
    b"0123456789abcdef0123456789abcdee 1000000000000000\nget 1\n",
];

/// Lines to a front end, and what it answers.
type Said = (&'static [u8], Option<&'static [u8]>);

const READ: [Said; 2] = [
    (
        b"get 1\nget 3\nput 1 8\nget 1\n",
        Some(b"value 7\nrefused 8\nok\nvalue 8\n"),
    ),
    (b"get 1\nget 1\n", Some(b"value 8\nvalue 8\n")),
];

/// Rules by which all is admitted, and by which nothing is but numbers.
const LOGGED: Rules = Rules {
    reads: Reads::Logged,
    widening: true,
    naming: true,
    tokens: false,
};

const PLAIN: Rules = Rules {
    reads: Reads::Plain,
    widening: true,
    naming: true,
    tokens: false,
};

const BARRED: Rules = Rules {
    reads: Reads::Plain,
    widening: false,
    naming: false,
    tokens: false,
};

/// What two other front ends have written: one that bars `widen`, and one that bars `begin` and `step`.
const BARRING: [&[u8]; 3] = [
    FIRST,
    b"0123456789abcdef0123456789abcdef 1000000000000000 whole -n\nwiden 9\nbegin 1\n",
    b"0123456789abcdef0123456789abcdee 1000000000000000 plain w-\nbegin 2\nstep 1\nwiden 6\n",
];

/// The reads of a front end alone are stored that says so, and what it bars is refused, whoever reads the log.
const READINGS: [(Rules, Transcript); 4] = [
    (
        BARRED,
        Transcript {
            title: "what is barred is refused, and no event",
            entries: &BARRING,
            every: 0,
            most: 0,
            reported: &[(
                b"widen 9\nbegin 3\nstep 1\nenter 3\nowner 1\n",
                Some(b"refused 14\nrefused 14\nrefused 14\nok\nowner none\n"),
            )],
            then: (4, 3),
        },
    ),
    (
        LOGGED,
        Transcript {
            title: "what others barred is admitted",
            entries: &BARRING,
            every: 0,
            most: 0,
            reported: &[(
                b"widen 6\nwiden 9\nbegin 1\nbegin 2\n",
                Some(b"refused 14\nok\nrefused 2\nok\n"),
            )],
            then: (4, 4),
        },
    ),
    (
        PLAIN,
        Transcript {
            title: "plain reads are no events, and alone no entry",
            entries: &READERS,
            every: 0,
            most: 0,
            reported: &READ,
            then: (5, 5),
        },
    ),
    (
        LOGGED,
        Transcript {
            title: "logged reads are",
            entries: &READERS,
            every: 0,
            most: 0,
            reported: &READ,
            then: (6, 9),
        },
    ),
];

// Whether a front end of these rules goes so.
fn rules_so(alloc: Global, rules: Rules, transcript: &Transcript) -> bool {
    match opened(alloc, transcript.entries, transcript.every, transcript.most) {
        Ok(mut persister) => {
            persister.choose_rules(rules);
            goes_so(alloc, &mut persister, transcript)
        }
        Err(_) => false,
    }
}

#[test]
fn rules_over_a_log(rt: HostRuntime) {
    for (rules, transcript) in &READINGS {
        assert!(rt;
            rules_so(rt.alloc(), *rules, transcript),
            "{}",
            transcript.title
        );
    }
}

#[test]
fn a_front_end_of_another_config_does_not_start(rt: HostRuntime) {
    let reported = opened(rt.alloc(), &[OF_THREE, OTHERS], 0, 0).err();
    assert!(rt; reported == Some(LogFault::OtherConfig));
}

/// How the log of a hall with a grace time of ten seconds begins, and a change of that to three.
const OF_TEN: &[u8] =
    b"beglushan hall 1 world rename m 4 k 4 limit 1000 terms b000000000000000 was b000000000000000\n";

const TO_THREE: &[u8] =
    b"0123456789abcdef0123456789abcdef 1000000000000000 terms 4000000000000000 was b000000000000000\n";

/// A line that tells terms in another way than a front end does.
const SLANTED: &[u8] =
    b"beglushan hall 1 world rename m 4 k 4 limit 1000 terms B000000000000000 was b000000000000000\n";

#[test]
fn a_log_tells_the_terms_of_its_hall(rt: HostRuntime) {
    let own = HallTerms::Forever;
    let reported = [
        opened(rt.alloc(), &[OF_TEN, OTHERS], 0, 0).err(),
        opened(rt.alloc(), &[OF_TEN, OTHERS, TO_THREE], 0, 0).err(),
        opened(rt.alloc(), &[FIRST, OTHERS, TO_THREE], 0, 0).err(),
        opened(rt.alloc(), &[SLANTED], 0, 0).err(),
        opened(rt.alloc(), &[FIRST, OTHERS], 0, 0).err(),
    ];
    let due = [
        Some(LogFault::OtherTerms(HallTerms::Grace(10), own)),
        Some(LogFault::OtherTerms(HallTerms::Grace(3), own)),
        Some(LogFault::OtherTerms(HallTerms::Grace(3), own)),
        Some(LogFault::OtherConfig),
        None,
    ];
    assert!(rt; reported == due);
}
