//! A writer of a resource's bytes: the fields that hold no others.

ghost use Rattle.std.specs.Prelude.{◌≡◌, ◌<◌, ◌≤◌, ◌*◌, ◌^◌, length, map, replicate, Some, None};
ghost use Rattle.std.specs.Prelude.{IfSome, IfNone};
ghost use Rattle.byteorder.specs.Endian.{big_bytes};
ghost use Rattle.rez_types.specs.declared.declaration.TextEnd.TheVariants as ends;
ghost use Rattle.rez_types.specs.View.{part_of, value_of, values_of};
ghost use Rattle.rez_types.specs.Leads.{LeadsTo, Gives, encoding_of, same};
ghost use Rattle.rez_types.specs.Decoding.{multiple, padding as padded};
ghost use Rattle.rez_types.specs.Encoding as spec;

use crate::declaration::{Boundary, Count, Part, Run, TextEnd};
use crate::decoder::{is_zero, padding, power};
use crate::fault::CodingFault;
use crate::value::Value;
use std::alloc::Global;

/// How many bytes a resource has at most.
const MOST_BYTES: usize = 16_777_216;

/// A writer of a resource's bytes.
#[derive(Drop)]
pub(crate) struct Encoder<'a> {
    /// The values that are still to be written.
    pub values: &'a [Value],
    /// The bytes so far.
    pub bytes: Vec<u8>,
    /// The counts of the block so far.
    pub counts: Vec<u32>,
    pub alloc: Global,
}

/// Returns the bits with which a count states a number of elements.
fn stated(count: Count, number: u32) -> u32
    requires { number < 2 ^ count.width.bits }
    ensures { result ≡ spec.stated count.width.bits count.is_less_one number }
{
    if count.is_less_one {
        let all = power(count.width.bits);
        ((number as u64 + (all - 1)) % all) as u32
    } else {
        number
    }
}

/// Returns the number of a run so far with so many more bits.
fn joined(number: u32, width: u8, bits: u32) -> u32
    requires { width ≤ 32 }
    ensures { result ≡ spec.joined number width bits }
{
    ((number as u64 * power(width) + bits as u64) % 0x1_0000_0000) as u32
}

/// Reports whether a string has no byte of 0.
pub fn has_no_zero(text: &[u8]) -> bool
    ensures { result ≡ spec.has_no_zero text.now }
{
    text.iter().all(|b| !is_zero(*b))
}

impl<'a> Encoder<'a> {
    /// Returns a writer before the first of the values.
    pub fn new(alloc: Global, values: &'a [Value]) -> Encoder<'a>
        ensures { encoding_of result ≡ spec.unwritten (values_of values.now) }
    {
        Encoder {
            values,
            bytes: Vec::new(alloc),
            counts: Vec::new(alloc),
            alloc,
        }
    }

    /// Reports whether so many more bytes may be written.
    fn has_room(&self, count: usize) -> bool
        ensures { result ≡ spec.has_room (length self.now.bytes.items) count }
    {
        self.bytes.len() <= MOST_BYTES && count <= MOST_BYTES - self.bytes.len()
    }

    /// Writes bytes.
    #[tactic(auto, unfolding(crate::specs::Encoding::write))]
    pub fn write(&mut self, more: &[u8]) -> Result<(), CodingFault>
        ensures { LeadsTo result (encoding_of self.new)
            (spec.write more.now (encoding_of self.old)) }
    {
        if !self.has_room(more.len()) {
            return Err(CodingFault::Misfit);
        }
        self.bytes.extend_from_slice(more)?;
        Ok(())
    }

    /// Writes bytes of 0.
    #[tactic(auto, unfolding(crate::specs::Encoding::write))]
    fn write_zeros(&mut self, count: usize) -> Result<(), CodingFault>
        ensures { LeadsTo result (encoding_of self.new)
            (spec.write (replicate count 0) (encoding_of self.old)) }
    {
        if !self.has_room(count) {
            return Err(CodingFault::Misfit);
        }
        let length = self.bytes.len() + count;
        self.bytes.resize(length, 0)?;
        Ok(())
    }

    /// Passes over the next value, and returns it.
    #[tactic(auto, unfolding(crate::specs::Encoding::next_value))]
    pub fn next_value(&mut self) -> Option<&'a Value>
        ensures value { IfSome result (λ v.
            spec.next_value (encoding_of self.old) ≡ Some (value_of v.now, encoding_of self.new)) }
        ensures none { IfNone result (spec.next_value (encoding_of self.old) ≡ None) }
    {
        match self.values {
            [first, rest @ ..] => {
                self.values = rest;
                Some(first)
            }
            _ => None,
        }
    }

    /// Passes over a number of at most so many bits, and returns it.
    #[tactic(auto, unfolding(crate::specs::Encoding::next_number))]
    pub fn next_number(&mut self, width: u8) -> Result<u32, CodingFault>
        requires { width ≤ 32 }
        ensures { Gives same result (encoding_of self.new)
            (spec.next_number width (encoding_of self.old)) }
    {
        let Some(value) = self.next_value() else {
            return Err(CodingFault::Misfit);
        };
        let Value::Number(number) = value else {
            return Err(CodingFault::Misfit);
        };
        if power(width) <= *number as u64 {
            return Err(CodingFault::Misfit);
        }
        Ok(*number)
    }

    /// Passes over a number of elements, and returns the bits with which a count states it.
    #[tactic(auto, unfolding(crate::specs::Encoding::next_count))]
    fn next_count(&mut self, count: Count) -> Result<u32, CodingFault>
        ensures { Gives same result (encoding_of self.new)
            (spec.next_count count.width.bits count.is_less_one (encoding_of self.old)) }
    {
        let Some(value) = self.next_value() else {
            return Err(CodingFault::Misfit);
        };
        let Value::Count(number) = value else {
            return Err(CodingFault::Misfit);
        };
        if power(count.width.bits) <= *number as u64 {
            return Err(CodingFault::Misfit);
        }
        self.counts.push(*number)?;
        Ok(stated(count, *number))
    }

    /// Passes over the value of a part of a run, where it has one, and returns the bits of the
    /// part.
    fn next_bits(&mut self, part: &Part) -> Result<u32, CodingFault>
        ensures { Gives same result (encoding_of self.new)
            (spec.encoded_part (part_of part.now) (encoding_of self.old)) }
    {
        match part {
            Part::Integer(integer) => self.next_number(integer.width.bits),
            Part::Constant(constant) => Ok(constant.pattern),
            Part::Count(count) => self.next_count(*count),
            Part::Fill(width) => self.next_number(width.bits),
        }
    }

    /// Passes over the values of a run's parts, and returns the number of the run.
    fn next_parts(&mut self, parts: &[Part]) -> Result<u32, CodingFault>
        ensures { Gives same result (encoding_of self.new)
            (spec.encoded_parts 0 (map part_of parts.now) (encoding_of self.old)) }
    {
        let mut number = 0;
        for part in parts {
            let bits = self.next_bits(part)?;
            number = joined(number, part.width(), bits);
        }
        Ok(number)
    }

    /// Writes the lowest bytes of a number, the highest of them first.
    fn write_number(&mut self, count: u8, number: u32) -> Result<(), CodingFault>
        requires { count ≤ 4 }
        ensures { LeadsTo result (encoding_of self.new)
            (spec.write (big_bytes count number) (encoding_of self.old)) }
    {
        let bytes = number.to_be_bytes();
        self.write(&bytes[4 - count as usize..])
    }

    /// Writes a run.
    #[tactic(auto, unfolding(crate::specs::Encoding::encoded_run))]
    pub fn write_run(&mut self, run: &Run) -> Result<(), CodingFault>
        ensures { LeadsTo result (encoding_of self.new) (spec.encoded_run run.now.bytes
            (map part_of run.now.parts.items) (encoding_of self.old)) }
    {
        let number = self.next_parts(run.parts.as_slice())?;
        self.write_number(run.bytes, number)
    }

    /// Writes a fill or an alignment of so many bytes.
    #[tactic(auto, unfolding(crate::specs::Encoding::encoded_fill))]
    pub fn write_fill(&mut self, count: usize) -> Result<(), CodingFault>
        ensures { LeadsTo result (encoding_of self.new)
            (spec.encoded_fill count (encoding_of self.old)) }
    {
        let Some(value) = self.next_value() else {
            return Err(CodingFault::Misfit);
        };
        let Value::Filled(bytes) = value else {
            return Err(CodingFault::Misfit);
        };
        if bytes.len() == count {
            self.write(bytes.as_slice())
        } else {
            self.write_zeros(count)
        }
    }

    /// Writes an alignment.
    pub fn write_padding(&mut self, boundary: Boundary) -> Result<(), CodingFault>
        ensures { LeadsTo result (encoding_of self.new) (spec.encoded_fill
            (padded (multiple boundary) (length self.old.bytes.items)) (encoding_of self.old)) }
    {
        let count = padding(boundary, self.bytes.len());
        self.write_fill(count)
    }

    /// Writes a string after a byte with its length.
    fn write_pstring(&mut self, text: &[u8]) -> Result<(), CodingFault>
        ensures { LeadsTo result (encoding_of self.new)
            (spec.written_text ends.Pascal text.now (encoding_of self.old)) }
    {
        if 255 < text.len() {
            return Err(CodingFault::Misfit);
        }
        self.write(&[text.len() as u8])?;
        self.write(text)
    }

    /// Writes a string, and a byte of 0.
    fn write_cstring(&mut self, text: &[u8]) -> Result<(), CodingFault>
        ensures { LeadsTo result (encoding_of self.new)
            (spec.written_text ends.C text.now (encoding_of self.old)) }
    {
        if !has_no_zero(text) {
            return Err(CodingFault::Misfit);
        }
        self.write(text)?;
        self.write(&[0])
    }

    /// Writes a string of so many bytes.
    fn write_fixed(&mut self, count: usize, text: &[u8]) -> Result<(), CodingFault>
        ensures { LeadsTo result (encoding_of self.new)
            (spec.written_fixed count text.now (encoding_of self.old)) }
    {
        if text.len() == count {
            self.write(text)
        } else {
            Err(CodingFault::Misfit)
        }
    }

    /// Writes the bytes of a string.
    fn write_bytes(&mut self, end: TextEnd, text: &[u8]) -> Result<(), CodingFault>
        ensures { LeadsTo result (encoding_of self.new)
            (spec.written_text end text.now (encoding_of self.old)) }
    {
        match end {
            TextEnd::Pascal => self.write_pstring(text),
            TextEnd::C => self.write_cstring(text),
            TextEnd::Char => self.write_fixed(1, text),
            TextEnd::Fixed(count) => self.write_fixed(count as usize, text),
            TextEnd::Resource => self.write(text),
        }
    }

    /// Writes a string.
    #[tactic(auto, unfolding(crate::specs::Encoding::encoded_text))]
    pub fn write_text(&mut self, end: TextEnd) -> Result<(), CodingFault>
        ensures { LeadsTo result (encoding_of self.new)
            (spec.encoded_text end (encoding_of self.old)) }
    {
        let Some(value) = self.next_value() else {
            return Err(CodingFault::Misfit);
        };
        let Value::Text(text) = value else {
            return Err(CodingFault::Misfit);
        };
        self.write_bytes(end, text.as_slice())
    }

    /// Writes so many coordinates.
    #[tactic(auto, using(crate::proofs::Turns::written_on))]
    pub fn write_coordinates(&mut self, count: u8) -> Result<(), CodingFault>
        ensures { LeadsTo result (encoding_of self.new)
            (spec.encoded_coordinates count (encoding_of self.old)) }
    {
        for i in 0..count {
            let number = self.next_number(16)?;
            self.write_number(2, number)?;
        }
        Ok(())
    }
}
