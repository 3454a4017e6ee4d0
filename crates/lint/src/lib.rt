//! What is wrong with a script or a job: every faulty line, in words, with its line and column.
//! Where a line is faulty is exactly what the readers of `script_text` say.
#![tactic(auto)]

mod absent;
mod argument;
mod form;
mod halt;
mod hint;
mod job;
mod judging;
mod nearest;
mod role;
mod script;
mod shown;
mod table;
mod words;
mod wrong;

pub use form::Form;
pub use job::{first_is_the_job_readers, job_faults};
pub use role::Role;
pub use script::{first_is_the_readers, script_faults};
pub use wrong::{Fault, Wrong};
