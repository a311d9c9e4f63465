//! The top call of the host: from the words of the command line and the bytes outside to a status, the sessions' ends and
//! the text on out.
#![tactic(auto)]

mod answers;
mod asking;
mod driver;
mod finish;
mod load;
mod machine;
mod names;
mod reader;
mod reply;
mod session;
mod solo;
mod top;
mod words;

pub use asking::{Form, Words, WordsFault, read_words};
pub use finish::{Finished, SessionEnd};
pub use load::machine_is_unique;
pub use machine::{Machine, Operation};
pub use names::Names;
pub use top::{host, host_solo};
