//! What the program can be asked for: a `Task`, such as `run`, `debug` or `audit`, the `Subject`
//! that it runs, and the `Request` of a subcommand.
#![tactic(auto)]

mod judge_request;
mod request;
mod subject;
mod task;

pub use judge_request::{JudgeRequest, JudgeSource};
pub use request::{Options, Request, kind_of, request_of};
pub use subject::Subject;
pub use task::Task;
