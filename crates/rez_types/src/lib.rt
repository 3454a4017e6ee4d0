//! Declarations of types in the language of Rez, and resources by them: the values of a resource's
//! bytes, and the bytes of values.
#![tactic(auto)]

mod declaration;
mod decoder;
mod decoding;
mod encoder;
mod encoding;
mod fault;
mod laws;
mod value;

pub use declaration::{
    Array, ArrayEnd, Block, Boundary, Case, Constant, Count, Declaration, Field, Form, Integer,
    KeyPlace, NamedNumber, NamedText, Part, Run, Stop, Switch, Text, TextEnd, Width,
};
pub use decoder::{number_of, power};
pub use decoding::decode;
pub use encoder::has_no_zero;
pub use encoding::encode;
pub use fault::CodingFault;
pub use laws::what_is_read_is_written;
pub use value::Value;
