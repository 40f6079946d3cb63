//! What a server listens on: a port of the network, a socket of the file system, and a port for whoever watches it.
//!
//! Nothing is promised of what the system does: that is shown by running it.
//!
//! From `service_host/src/start.rt`:
//!
//! ```text
//! let Listening { listeners, files } = listen(rt, alloc, plan.listen)?;
//! ```
pub mod fault;
pub mod listening;
pub mod socket_file;

pub use fault::ListenFault;
pub use listening::{ListenPlan, Listeners, Listening, listen};
pub use socket_file::{LocalListener, SocketFile, SocketFiles, SocketPlan};
