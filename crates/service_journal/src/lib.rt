//! A hall whose history outlasts the program: its journal.
//!
//! The journal is a record, with the very lines of `play --record`: a header, and each accepted event with its reply as a line.
//! A `WriteAhead` is a service round a hall whose lines wait until they are committed. `Journal::commit` writes what waits and waits
//! itself until it is durable: whoever lets replies out after it alone has each of them on the disk. After a call of the disk that
//! failed nothing is ever written again.
//!
//! A crash leaves a prefix of what was written and all that was synced. Once its torn line is cut that is the record of the hall
//! as it was after some of its events, at least those that were committed (`law_of_crashes`); `Journal::open` reads it, and
//! gives the hall of that record.
//!
//! A history that has grown long is compacted (`Compactor` of `service_hall`): the record of a hall with the same desk takes the place of all that was
//! written, in one step of the disk (`Journal::compact`). A crash in its midst leaves what one before it leaves, or the new record, whole.
//!
//! What a journal is written to is a `Disk`: bytes that outlast a crash. It says what each call does to what was written, to how much of that is
//! durable, and to how often bytes were cut off or replaced. A crash leaves a prefix of what was written, and all that was durable
//! (`MayLeave`); one in the midst of a replacing leaves that of the old bytes, or all of the new ones (`MayLeaveEither`). `FileDisk` is a file of
//! the system. Nothing is known of its bytes, since no contract can say what the system does: that it is such a disk is trusted. `MemoryDisk` is
//! one in memory, for integration tests, with faults and crashes of its own: there each clause is proved.
//!
//! A `SealedDisk` is one over another, on which each line stands beside its checksum: a journal of version 3. A crash leaves of it what it may
//! leave of the lines (`law_of_sealed_crashes`). Lines without checksums, as journals of version 2 have them, are read as they are.
//!
//! From `tests_service/src/journals.rt`:
//!
//! ```text
//! Ok(config) => Journal::open(alloc, disk, config).map_err(|refused| refused.fault),
//! ..
//! let mut view = View::new();
//! write_ahead.apply(&(), event, &mut view)
//! ..
//! Act::Commits => journal.commit(write_ahead).is_ok(),
//! ```
#![tactic(auto)]

pub mod disk;
pub mod file_disk;
pub mod journal;
pub mod laws;
pub mod memory_disk;
pub mod opening;
mod record;
pub mod sealed_disk;
pub mod write_ahead;

pub use disk::{Disk, DiskFault};
pub use file_disk::{FileDisk, FileFault};
pub use journal::{Journal, JournalFault, NotOpened, Opened};
pub use laws::{law_of_crashes, law_of_limits, law_of_sealed_crashes};
pub use memory_disk::MemoryDisk;
pub use opening::OpenFault;
pub use sealed_disk::SealedDisk;
pub use write_ahead::{MOST_WAITING, WriteAhead};
