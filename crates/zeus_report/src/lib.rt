//! The report of a run: what each step of a script answers, makes and sends, and how the world stands at the end.
#![tactic(auto)]

mod answers;
mod letters;
mod runs;
mod standing;
mod steps;
mod words;

pub use runs::report;
pub use zeus_base::NoMemory;
pub use zeus_model::Script;
pub use zeus_world::World;
