//! The values of a resource's bytes.

ghost use Rattle.std.specs.Prelude.{◌≡◌, [], length, map, option_map, slice_get};
ghost use Rattle.std.specs.List.{position};
ghost use Rattle.rez_types.specs.View.{fields_of, field_of, blocks_of, end_of, place_of, case_of};
ghost use Rattle.rez_types.specs.View.{declaration_of};
ghost use Rattle.rez_types.specs.Leads.{LeadsTo, Returns, decoding_of, values_in};
ghost use Rattle.rez_types.specs.Decoding as spec;

use crate::declaration::{ArrayEnd, Block, Case, Declaration, Field, KeyPlace, Stop};
use crate::decoder::{Decoder, bits_of, number_of, padding};
use crate::fault::CodingFault;
use crate::value::Value;
use std::alloc::Global;
use std::mem::replace;

/// How deep blocks may stand in one another.
pub(crate) const MOST_DEPTH: u8 = 8;

/// Reports whether bytes begin with those of a constant.
pub(crate) fn begins(stop: Stop, bytes: &[u8]) -> bool
    ensures { result ≡ spec.begins stop.bytes stop.pattern bytes.now }
{
    stop.bytes as usize <= bytes.len() && number_of(stop.bytes, bytes) == stop.pattern
}

/// Reports whether an array ends before bytes.
fn ends_before(end: ArrayEnd, bytes: &[u8]) -> bool
    ensures { result ≡ spec.ends_before (end_of end) bytes.now }
{
    match end {
        ArrayEnd::Constant(stop) => begins(stop, bytes),
        ArrayEnd::Fixed(_) => bytes.is_empty(),
        ArrayEnd::Counted(_) => bytes.is_empty(),
        ArrayEnd::Resource => bytes.is_empty(),
    }
}

/// Returns the key of the bytes of a case.
fn key_in(key: &KeyPlace, bytes: &[u8]) -> Option<u32>
    ensures { result ≡ spec.key_in (place_of key.now) bytes.now }
{
    let before = key.before as usize;
    if bytes.len() < before + key.bytes as usize {
        return None;
    }
    let number = number_of(key.bytes, &bytes[before..]);
    Some(bits_of(key.width.bits, key.below, number))
}

fn has_key(pattern: u32, case: &Case) -> bool
    ensures { result ≡ spec.has_key pattern (case_of case.now) }
{
    case.pattern == pattern
}

/// Returns the place of the first case with a key.
fn place_with(pattern: u32, cases: &[Case]) -> Option<usize>
    ensures { result ≡ position (spec.has_key pattern) (map case_of cases.now) }
{
    cases.iter().position(|c| has_key(pattern, c))
}

/// Returns the fields of a block.
pub(crate) fn fields_in(blocks: &[Block], block: usize) -> Option<&[Field]>
    ensures { option_map (λ fields. fields_of fields.now) result
        ≡ slice_get (blocks_of blocks.now) block }
{
    let found = blocks.get(block)?;
    Some(found.fields.as_slice())
}

impl<'a> Decoder<'a> {
    /// Begins a block, which has counts of its own, and returns those of the block around it.
    fn begin_block(&mut self) -> Vec<u32>
        ensures begun { decoding_of self.new ≡ spec.with_counts [] (decoding_of self.old) }
        ensures outer { result.items ≡ (decoding_of self.old).counts }
    {
        replace(&mut self.counts, Vec::new(self.alloc))
    }

    /// Ends a block: the counts are again those of the block around it.
    fn end_block(&mut self, outer: Vec<u32>)
        ensures { decoding_of self.new ≡ spec.with_counts outer.items (decoding_of self.old) }
    {
        self.counts = outer;
    }

    /// Takes a block.
    #[cycle(decode)]
    #[tactic(auto, using(crate::proofs::Turns::block_on))]
    fn take_block(&mut self, depth: u8, blocks: &[Block], block: usize) -> Result<(), CodingFault>
        ensures { LeadsTo result (decoding_of self.new)
            (spec.decoded depth (blocks_of blocks.now) block (decoding_of self.old)) }
    {
        if depth == 0 {
            return Err(CodingFault::Misfit);
        }
        let Some(fields) = fields_in(blocks, block) else {
            return Err(CodingFault::Misfit);
        };
        self.take_alone(depth - 1, blocks, fields)
    }

    /// Takes the fields of a block, which has counts of its own.
    #[cycle(decode)]
    fn take_alone(
        &mut self,
        depth: u8,
        blocks: &[Block],
        fields: &[Field],
    ) -> Result<(), CodingFault>
        ensures { LeadsTo result (decoding_of self.new) (spec.decoded_alone (spec.decoded depth
            (blocks_of blocks.now)) (fields_of fields.now) (decoding_of self.old)) }
    {
        let outer = self.begin_block();
        self.take_fields(depth, blocks, fields)?;
        self.end_block(outer);
        Ok(())
    }

    /// Takes fields in turn.
    #[cycle(decode)]
    fn take_fields(
        &mut self,
        depth: u8,
        blocks: &[Block],
        fields: &[Field],
    ) -> Result<(), CodingFault>
        ensures { LeadsTo result (decoding_of self.new) (spec.decoded_fields (spec.decoded depth
            (blocks_of blocks.now)) (fields_of fields.now) (decoding_of self.old)) }
    {
        for field in fields {
            self.take_field(depth, blocks, field)?;
        }
        Ok(())
    }

    /// Takes a field.
    #[cycle(decode)]
    fn take_field(&mut self, depth: u8, blocks: &[Block], field: &Field) -> Result<(), CodingFault>
        ensures { LeadsTo result (decoding_of self.new) (spec.decoded_field (spec.decoded depth
            (blocks_of blocks.now)) (field_of field.now) (decoding_of self.old)) }
    {
        match field {
            Field::Run(run) => self.take_run(run),
            Field::Fill(count) => self.take_fill(*count as usize),
            Field::Align(boundary) => self.take_fill(padding(*boundary, self.phase as usize)),
            Field::Text(text) => self.take_text(text.end),
            Field::Point => self.take_coordinates(2),
            Field::Rect => self.take_coordinates(4),
            Field::Array(array) => self.take_array(depth, blocks, array.end, array.block),
            Field::Switch(switch) => self.take_switch(
                depth,
                blocks,
                &switch.key,
                switch.cases.as_slice(),
            ),
        }
    }

    /// Takes the elements of an array.
    #[cycle(decode)]
    fn take_array(
        &mut self,
        depth: u8,
        blocks: &[Block],
        end: ArrayEnd,
        block: usize,
    ) -> Result<(), CodingFault>
        ensures { LeadsTo result (decoding_of self.new) (spec.decoded_array
            (spec.decoded depth (blocks_of blocks.now) block) (end_of end) (decoding_of self.old)) }
    {
        match end {
            ArrayEnd::Fixed(count) => self.take_elements(depth, blocks, block, count as u32),
            ArrayEnd::Counted(place) => match self.counts.get(place) {
                Some(count) => {
                    let count = *count;
                    self.take_elements(depth, blocks, block, count)
                }
                None => Err(CodingFault::Misfit),
            },
            ArrayEnd::Constant(_) => self.take_until(depth, blocks, block, end),
            ArrayEnd::Resource => self.take_until(depth, blocks, block, end),
        }
    }

    /// Takes so many elements.
    #[cycle(decode)]
    #[tactic(auto, using(crate::proofs::Turns::elements_on))]
    fn take_elements(
        &mut self,
        depth: u8,
        blocks: &[Block],
        block: usize,
        count: u32,
    ) -> Result<(), CodingFault>
        ensures { LeadsTo result (decoding_of self.new) (spec.decoded_elements
            (spec.decoded depth (blocks_of blocks.now) block) count (decoding_of self.old)) }
    {
        for i in 0..count {
            self.put(Value::Element)?;
            self.take_block(depth, blocks, block)?;
        }
        self.put(Value::NoElement)
    }

    /// Takes elements up to where the array ends.
    #[cycle(decode)]
    #[tactic(auto, using(crate::proofs::Turns::until_on))]
    fn take_until(
        &mut self,
        depth: u8,
        blocks: &[Block],
        block: usize,
        end: ArrayEnd,
    ) -> Result<(), CodingFault>
        ensures { LeadsTo result (decoding_of self.new)
            (spec.decoded_until (spec.decoded depth (blocks_of blocks.now) block) (end_of end)
            (length self.old.rest.now) (decoding_of self.old)) }
    {
        let most = self.rest.len();
        for i in 0..most {
            if ends_before(end, self.rest) {
                return self.put(Value::NoElement);
            }
            self.put(Value::Element)?;
            self.take_block(depth, blocks, block)?;
        }
        if ends_before(end, self.rest) {
            self.put(Value::NoElement)
        } else {
            Err(CodingFault::Misfit)
        }
    }

    /// Takes one of several cases.
    #[cycle(decode)]
    #[tactic(auto, unfolding(crate::specs::Decoding::decoded_switch))]
    fn take_switch(
        &mut self,
        depth: u8,
        blocks: &[Block],
        key: &KeyPlace,
        cases: &[Case],
    ) -> Result<(), CodingFault>
        ensures { LeadsTo result (decoding_of self.new)
            (spec.decoded_switch (spec.decoded depth (blocks_of blocks.now)) (place_of key.now)
            (map case_of cases.now) (decoding_of self.old)) }
    {
        let Some(pattern) = key_in(key, self.rest) else {
            return Err(CodingFault::Misfit);
        };
        let Some(place) = place_with(pattern, cases) else {
            return Err(CodingFault::Misfit);
        };
        let Some(case) = cases.get(place) else {
            return Err(CodingFault::Misfit);
        };
        self.put(Value::Case(place))?;
        self.take_block(depth, blocks, case.block)
    }
}

/// Returns the values of a resource's bytes, by a declaration.
///
/// # Errors
///
/// Returns `Misfit` where the bytes are none of the declared type, or have more than 1,048,576
/// values; `HostMemory` where the host is out of memory.
#[tactic(auto, unfolding(crate::specs::Decoding::values_of_datum))]
pub fn decode(
    alloc: Global,
    declaration: &Declaration,
    bytes: &[u8],
) -> Result<Vec<Value>, CodingFault>
    ensures { Returns values_in result
        (spec.values_of_datum (declaration_of declaration.now) bytes.now) }
{
    let mut decoder = Decoder::new(alloc, bytes);
    decoder.take_fields(
        MOST_DEPTH,
        declaration.blocks.as_slice(),
        declaration.fields.as_slice(),
    )?;
    if decoder.rest.is_empty() {
        Ok(decoder.values)
    } else {
        Err(CodingFault::Misfit)
    }
}
