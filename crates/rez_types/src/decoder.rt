//! A reader of a resource's bytes: the fields that hold no others.

ghost use Rattle.std.specs.Prelude.{◌≡◌, ◌<◌, ◌≤◌, ◌*◌, ◌^◌, length, map};
ghost use Rattle.std.specs.List.{position};
ghost use Rattle.byteorder.specs.Endian.{big_number};
ghost use Rattle.rez_types.specs.declared.declaration.Part.TheVariants as parts;
ghost use Rattle.rez_types.specs.View.{part_of, value_of};
ghost use Rattle.rez_types.specs.Leads.{LeadsTo, Gives, decoding_of, same, bytes_in};
ghost use Rattle.rez_types.specs.Decoding as spec;

use crate::declaration::{Boundary, Count, Part, Run, TextEnd};
use crate::fault::CodingFault;
use crate::value::Value;
use byteorder::{BigEndian, ByteOrder};
use std::alloc::Global;

/// How many values a resource has at most.
const MOST_VALUES: usize = 1_048_576;

/// A reader of a resource's bytes.
#[derive(Drop)]
pub(crate) struct Decoder<'a> {
    /// How many bytes past a multiple of four the reader stands.
    pub phase: u8,
    /// The bytes that are still to be read.
    pub rest: &'a [u8],
    /// The values so far.
    pub values: Vec<Value>,
    /// The counts of the block so far.
    pub counts: Vec<u32>,
    pub alloc: Global,
}

/// Returns the number of the first `count` bytes, the highest first.
pub fn number_of(count: u8, bytes: &[u8]) -> u32
    requires few { count ≤ 4 }
    requires there { count ≤ length bytes.now }
    ensures { result ≡ big_number count bytes.now }
{
    match count {
        0 => 0,
        1 => bytes[0] as u32,
        2 => BigEndian::read_u16(bytes) as u32,
        3 => BigEndian::read_u24(bytes),
        _ => BigEndian::read_u32(bytes),
    }
}

/// Returns how many values so many bits have.
pub fn power(width: u8) -> u64
    requires { width ≤ 32 }
    ensures value { result ≡ 2 ^ width }
    ensures positive { 0 < result }
    ensures fits { result ≤ 2 ^ 32 }
{
    1u64 << width
}

/// Returns so many bits of a number, above its lowest `below` ones.
pub(crate) fn bits_of(width: u8, below: u8, number: u32) -> u32
    requires width { width ≤ 32 }
    requires below { below ≤ 32 }
    ensures { result ≡ spec.bits_of width below number }
{
    (number as u64 / power(below) % power(width)) as u32
}

/// Returns the number of elements that the bits of a count state.
fn counted(count: Count, bits: u32) -> u32
    ensures { result ≡ spec.counted count.width.bits count.is_less_one bits }
{
    if count.is_less_one {
        ((bits as u64 + 1) % power(count.width.bits)) as u32
    } else {
        bits
    }
}

/// Returns how many bytes there are from a place, by how many bytes it is past a multiple of four,
/// to a boundary.
pub(crate) fn padding(boundary: Boundary, phase: usize) -> usize
    ensures { result ≡ spec.padding (spec.multiple boundary) phase }
{
    match boundary {
        Boundary::Word => (2 - phase % 2) % 2,
        Boundary::Long => (4 - phase % 4) % 4,
    }
}

/// Reports whether a byte is 0.
pub(crate) fn is_zero(byte: u8) -> bool
    ensures { result ≡ spec.is_zero byte }
{
    byte == 0
}

/// Returns the place of the first byte of 0.
fn place_of_zero(bytes: &[u8]) -> Option<usize>
    ensures { result ≡ position spec.is_zero bytes.now }
{
    bytes.iter().position(|b| is_zero(*b))
}

impl Part {
    /// Returns how many bits the part has.
    pub fn width(&self) -> u8
        ensures width { result ≡ spec.width_of (part_of self.now) }
        ensures fits { result ≤ 32 }
    {
        match self {
            Part::Integer(integer) => integer.width.bits,
            Part::Constant(constant) => constant.width.bits,
            Part::Count(count) => count.width.bits,
            Part::Fill(width) => width.bits,
        }
    }
}

impl<'a> Decoder<'a> {
    /// Returns a reader before the first of the bytes.
    pub fn new(alloc: Global, bytes: &'a [u8]) -> Decoder<'a>
        ensures { decoding_of result ≡ spec.unread bytes.now }
    {
        Decoder {
            phase: 0,
            rest: bytes,
            values: Vec::new(alloc),
            counts: Vec::new(alloc),
            alloc,
        }
    }

    /// Adds a value.
    #[tactic(auto, unfolding(crate::specs::Decoding::put))]
    pub fn put(&mut self, value: Value) -> Result<(), CodingFault>
        ensures { LeadsTo result (decoding_of self.new)
            (spec.put (value_of value) (decoding_of self.old)) }
    {
        if MOST_VALUES <= self.values.len() {
            return Err(CodingFault::Misfit);
        }
        self.values.push(value)?;
        Ok(())
    }

    /// Passes over the next bytes, and returns them as a number, the highest first.
    #[tactic(auto, unfolding(crate::specs::Decoding::next_number, crate::specs::Decoding::next))]
    pub fn next_number(&mut self, count: u8) -> Result<u32, CodingFault>
        requires few { count ≤ 4 }
        ensures { Gives same result (decoding_of self.new)
            (spec.next_number count (decoding_of self.old)) }
    {
        let length = count as usize;
        if self.rest.len() < length {
            return Err(CodingFault::Misfit);
        }
        let number = number_of(count, &self.rest[..length]);
        self.rest = &self.rest[length..];
        self.phase = ((self.phase as usize + length % 4) % 4) as u8;
        Ok(number)
    }

    /// Passes over the next bytes, and returns them.
    #[tactic(auto, unfolding(crate::specs::Decoding::next))]
    fn next(&mut self, count: usize) -> Result<Vec<u8>, CodingFault>
        ensures { Gives bytes_in result (decoding_of self.new)
            (spec.next count (decoding_of self.old)) }
    {
        if self.rest.len() < count {
            return Err(CodingFault::Misfit);
        }
        let bytes = Vec::from_slice(self.alloc, &self.rest[..count])?;
        self.rest = &self.rest[count..];
        self.phase = ((self.phase as usize + count % 4) % 4) as u8;
        Ok(bytes)
    }

    /// Takes a count of the block.
    fn take_count(&mut self, count: Count, bits: u32) -> Result<(), CodingFault>
        ensures { LeadsTo result (decoding_of self.new)
            (spec.decoded_part (part_of (parts.Count count)) bits (decoding_of self.old)) }
    {
        let number = counted(count, bits);
        self.counts.push(number)?;
        self.put(Value::Count(number))
    }

    /// Takes a part of a run, by its bits.
    fn take_part(&mut self, part: &Part, bits: u32) -> Result<(), CodingFault>
        ensures { LeadsTo result (decoding_of self.new)
            (spec.decoded_part (part_of part.now) bits (decoding_of self.old)) }
    {
        match part {
            Part::Integer(_) => self.put(Value::Number(bits)),
            Part::Fill(_) => self.put(Value::Number(bits)),
            Part::Constant(constant) => {
                if bits == constant.pattern {
                    Ok(())
                } else {
                    Err(CodingFault::Misfit)
                }
            }
            Part::Count(count) => self.take_count(*count, bits),
        }
    }

    /// Takes the parts of a run in turn, from the number of its bytes.
    fn take_parts(&mut self, number: u32, bytes: u8, parts: &[Part]) -> Result<(), CodingFault>
        requires { bytes ≤ 4 }
        ensures { LeadsTo result (decoding_of self.new)
            (spec.decoded_parts number (8 * bytes) (map part_of parts.now) (decoding_of self.old)) }
    {
        let mut left = 8 * bytes;
        for part in parts {
            let width = part.width();
            left = left.saturating_sub(width);
            self.take_part(part, bits_of(width, left, number))?;
        }
        Ok(())
    }

    /// Takes a run.
    #[tactic(auto, unfolding(crate::specs::Decoding::decoded_run))]
    pub fn take_run(&mut self, run: &Run) -> Result<(), CodingFault>
        ensures { LeadsTo result (decoding_of self.new) (spec.decoded_run run.now.bytes
            (map part_of run.now.parts.items) (decoding_of self.old)) }
    {
        let number = self.next_number(run.bytes)?;
        self.take_parts(number, run.bytes, run.parts.as_slice())
    }

    /// Takes the bytes of a fill or an alignment.
    #[tactic(auto, unfolding(crate::specs::Decoding::decoded_fill))]
    pub fn take_fill(&mut self, count: usize) -> Result<(), CodingFault>
        ensures { LeadsTo result (decoding_of self.new)
            (spec.decoded_fill count (decoding_of self.old)) }
    {
        let bytes = self.next(count)?;
        self.put(Value::Filled(bytes))
    }

    /// Takes a string of so many bytes.
    #[tactic(auto, unfolding(crate::specs::Decoding::decoded_bytes))]
    fn take_bytes(&mut self, count: usize) -> Result<(), CodingFault>
        ensures { LeadsTo result (decoding_of self.new)
            (spec.decoded_bytes count (decoding_of self.old)) }
    {
        let bytes = self.next(count)?;
        self.put(Value::Text(bytes))
    }

    /// Takes a string after a byte with its length.
    #[tactic(auto, unfolding(crate::specs::Decoding::decoded_pstring))]
    fn take_pstring(&mut self) -> Result<(), CodingFault>
        ensures { LeadsTo result (decoding_of self.new)
            (spec.decoded_pstring (decoding_of self.old)) }
    {
        let count = self.next_number(1)?;
        self.take_bytes(count as usize)
    }

    /// Takes a string that a byte of 0 ends.
    #[tactic(auto, unfolding(crate::specs::Decoding::decoded_cstring))]
    fn take_cstring(&mut self) -> Result<(), CodingFault>
        ensures { LeadsTo result (decoding_of self.new)
            (spec.decoded_cstring (decoding_of self.old)) }
    {
        let Some(count) = place_of_zero(self.rest) else {
            return Err(CodingFault::Misfit);
        };
        self.take_bytes(count)?;
        self.next_number(1)?;
        Ok(())
    }

    /// Takes a string.
    pub fn take_text(&mut self, end: TextEnd) -> Result<(), CodingFault>
        ensures { LeadsTo result (decoding_of self.new)
            (spec.decoded_text end (decoding_of self.old)) }
    {
        match end {
            TextEnd::Pascal => self.take_pstring(),
            TextEnd::C => self.take_cstring(),
            TextEnd::Char => self.take_bytes(1),
            TextEnd::Fixed(count) => self.take_bytes(count as usize),
            TextEnd::Resource => self.take_bytes(self.rest.len()),
        }
    }

    /// Takes so many coordinates.
    #[tactic(auto, using(crate::proofs::Turns::coordinates_on))]
    pub fn take_coordinates(&mut self, count: u8) -> Result<(), CodingFault>
        ensures { LeadsTo result (decoding_of self.new)
            (spec.decoded_coordinates count (decoding_of self.old)) }
    {
        for i in 0..count {
            let number = self.next_number(2)?;
            self.put(Value::Number(number))?;
        }
        Ok(())
    }
}
