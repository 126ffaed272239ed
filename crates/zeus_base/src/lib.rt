//! Numbers, node sets, stamps, values, configurations and steps: what every other crate speaks of.
#![tactic(auto)]

mod config;
mod copying;
mod list;
mod node_set;
mod numbers;
mod order;
mod short_list;
mod step;
mod value;

pub use config::{Config, Limits, ObjectDecl, ObjectList};
pub use copying::push_copy;
pub use list::List;
pub use node_set::{NodeSet, Nodes};
pub use numbers::{NodeId, ObjId, SlotId, TxId};
pub use order::{Stamp, Stream};
pub use short_list::ShortList;
pub use step::{NoMemory, Passed, Step, Steps};
pub use value::{Text, Value};
