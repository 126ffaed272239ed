//! A random schedule: steps of a run that are chosen by the words of a generator, until all transactions are closed or so
//! many steps were taken.
#![tactic(auto)]

mod begins;
mod chooser;
mod closing;
mod deliveries;
mod faults;
mod fresh;
mod lists;
mod members;
mod nodes;
mod places;
mod queues;
mod runs;
mod scheduler;
mod slots;
mod tables;
mod words;

pub use faults::Faults;
pub use fresh::FreshPacket;
pub use runs::schedule_run;
pub use words::Words;
pub use zeus_base::{NoMemory, NodeId, Step, Steps};
pub use zeus_model::Script;
pub use zeus_world::World;
