//! What the program shows, and the exact text of it.
#![tactic(auto)]

mod audit;
mod certified;
mod cut;
mod design;
mod flow;
mod laws;
mod line;
mod names;
mod points;
mod prices;
mod refusal;
mod sample;
mod shown;
mod sweep;
mod targets;
mod text;
mod total_site;

pub use laws::printed_proofs_are_answered_with_yes;
pub use shown::{FileRole, Shown};
pub use text::text_of;
