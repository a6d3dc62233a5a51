//! The command forms: words form a command, which names files; all files are read, and then it is
//! answered.
#![tactic(auto)]

mod answers;
mod audit;
mod certify_answer;
mod design;
mod files;
mod flow;
mod forms;
mod numbers;
mod prices_answer;
mod request;
mod sample_answer;
mod site_answer;
mod status;
mod stop;
mod sweep_answer;
mod task_answer;
mod vertical_answer;
mod word;

pub use answers::answer;
pub use request::{CaseTask, Request, request_of};
pub use status::{Status, status_of};
pub use stop::Stop;
pub use word::Word;
