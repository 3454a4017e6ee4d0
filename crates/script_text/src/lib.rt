//! The texts: reads scripts and jobs, and writes the lines of transcripts and of desk.log, exactly
//! as the definitions in specs/ say.
#![tactic(auto)]

mod argument;
mod arguments;
mod blocks;
mod desk_log;
mod fault;
mod inputs;
mod job;
mod job_line;
mod job_lines;
mod job_word;
mod likely;
mod lines;
mod owners;
mod script;
mod script_lines;
mod token;
mod transcript;
mod word;

pub use argument::{Argument, GREATEST_SIZE, is_label, number_in, path_in};
pub use desk_log::{APP_ROOM, write_app_end, write_app_fork, write_app_launch, write_app_refusal};
pub use fault::{FaultKind, ScriptFault};
pub use job::{Act, Event, Input, JobText, read_job};
pub use job_line::{JobLine, read_job_line};
pub use job_lines::{JobLines, Misfit, Refusal};
pub use job_word::{JOB_WORDS, JobWord};
pub use lines::{LONGEST_LINE, next_line};
pub use script::{Line, Script, read_script};
pub use script_lines::ScriptLines;
pub use token::{first_blank, first_token, trim};
pub use transcript::{
    CODE_ROOM, END_ROOM, LAUNCH_ROOM, LINE_ROOM, write_end, write_grow_reply, write_hex,
    write_launch, write_reply,
};
pub use word::{CALLS, CallWord, WORDS, words_are_apart};
