//! A whole run of the program, between a source and a sink: its command line, its devices, and
//! whole live runs, judgements and models.
#![tactic(auto)]

mod answers;
mod arguments;
mod judge_run;
mod live_run;
mod model_run;
mod output;
mod skipped;
mod texts;
mod told_run;
mod whole_run;
mod whole_texts;

pub use answers::{answer, fault_line, say_terminal};
pub use arguments::{Order, invocation_of};
pub use judge_run::conduct_judge;
pub use live_run::{LiveTask, conduct_live, conduct_live_keeping};
pub use model_run::conduct_model;
pub use output::model_output;
pub use skipped::SkippedCall;
pub use snap_faults::{ProgramFault, ProgramFault as Fault, fault_status, write_all};
pub use snap_input::{shipped, split_parts};
pub use snap_judge_task::Linearizability;
pub use snap_live::{Gate, NoGate};
pub use snap_output::perform;
pub use snap_promela::ModelRefusal;
pub use snap_semantics::Refusal;
pub use snap_streams::{ByteSink, ByteSink as Sink, ByteSource, ByteSource as Source, Failed, Std};
pub use snap_tasks::{
    JudgeRequest, JudgeSource, Options, Request, Subject, Task, kind_of, request_of,
};
pub use told_run::conduct_telling;
pub use whole_run::{conduct, conduct_keeping};
pub use whole_texts::read_all;
