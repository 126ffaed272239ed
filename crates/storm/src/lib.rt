//! A storm: a random run of random transactions, both drawn from eight numbers, and its summary.
#![tactic(auto)]

mod counts;
mod draw;
mod end;
mod numbers;
mod runs;
mod script;
mod text;

pub use end::StormEnd;
pub use numbers::StormNumbers;
pub use random_schedule::{Words, schedule_run};
pub use runs::storm_run;
pub use script::storm_script;
pub use text::summary;
pub use zeus_base::NoMemory;
pub use zeus_model::Script;
