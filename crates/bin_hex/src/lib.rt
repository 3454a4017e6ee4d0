//! BinHex 4.0: files of the Macintosh as text, read and written.
#![tactic(auto)]

mod alphabet;
mod fault;
mod file;
mod laws;
mod packing;
mod putting;
mod reading;
mod runs;
mod text;
mod writing;

pub use fault::{BinHexFault, Damage, Part, PutFault, WriteFault};
pub use file::BinHexFile;
pub use laws::{
    a_file_is_read_again, a_file_is_read_from_any_lines, a_file_that_is_read_can_be_written,
    a_fork_that_was_put_is_read_again,
};
pub use putting::put_fork;
pub use reading::read;
pub use text::is_bin_hex;
pub use writing::write;
