//! What is written for an input, for each task of the program; of runs, batches and audits, and of
//! traces, item by item.
#![tactic(auto)]

mod audit_output;
mod batch_output;
mod debug_output;
mod debug_task;
mod headlines;
mod heads;
mod inputs;
mod item;
mod laws;
mod outputs;
mod program;
mod run_output;
mod run_trace;
mod task;

pub use debug_output::perform;
pub use debug_task::debug;
pub use headlines::{headline, traces_are_refused_as_runs};
pub use inputs::{audit, batch, run};
pub use laws::the_report_is_the_sum_of_the_trace;
pub use outputs::{output, output_alone, planned_run};
pub use run_output::{PlannedRun, run_planned};
pub use run_trace::trace;
pub use snap_survey::Output;
pub use snap_tasks::Task;
