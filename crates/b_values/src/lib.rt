//! Values, states and faces of a machine of classical B.
#![tactic(auto)]

mod comparing;
mod preferences;
mod reading;
mod sets;
mod sizes;
mod texts;
mod types;
mod values;

pub use comparing::{order, order_items, same_state, same_value};
pub use reading::{BRACKET_LIMIT, ReadFault, one_value, read_value, reads_back};
pub use sets::{is_member, limited, make_set, set_from};
pub use sizes::{NODE_LIMIT, fits, nodes, spend, spend_all};
pub use texts::{NoMemory, write_value};
pub use types::{Face, NameFace, OpFace, OpId, Prefs, SetFace, Ty};
pub use values::{EvalFault, FaultKind, State, Text, Value, share_all};
