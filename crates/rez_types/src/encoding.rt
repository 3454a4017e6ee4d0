//! The bytes of a resource's values.

ghost use Rattle.std.specs.Prelude.{◌≡◌, [], length, map, drop};
ghost use Rattle.rez_types.specs.View.{fields_of, field_of, blocks_of, end_of, case_of};
ghost use Rattle.rez_types.specs.View.{declaration_of, values_of};
ghost use Rattle.rez_types.specs.Leads.{LeadsTo, Gives, Returns, encoding_of, same, flag, bytes_in};
ghost use Rattle.rez_types.specs.Encoding as spec;

use crate::declaration::{ArrayEnd, Block, Case, Declaration, Field};
use crate::decoding::{MOST_DEPTH, begins, fields_in};
use crate::encoder::Encoder;
use crate::fault::CodingFault;
use crate::value::Value;
use std::alloc::Global;
use std::mem::replace;

/// Reports whether the bytes after the first ones are those of an element, which do not end its
/// array.
fn is_element(end: ArrayEnd, before: usize, bytes: &[u8]) -> bool
    ensures { result ≡ spec.is_element (end_of end) (drop before bytes.now) }
{
    match end {
        ArrayEnd::Constant(stop) => match bytes.get(before..) {
            Some(element) => !begins(stop, element),
            None => !begins(stop, &[]),
        },
        ArrayEnd::Fixed(_) => true,
        ArrayEnd::Counted(_) => true,
        ArrayEnd::Resource => true,
    }
}

/// Reports whether an array that ends so may have so many elements, where its block has these
/// counts.
fn may_have(end: ArrayEnd, counts: &[u32], count: usize) -> bool
    ensures { result ≡ spec.may_have (end_of end) counts.now count }
{
    match end {
        ArrayEnd::Fixed(number) => count == number as usize,
        ArrayEnd::Counted(place) => match counts.get(place) {
            Some(number) => count == *number as usize,
            None => false,
        },
        ArrayEnd::Constant(_) => true,
        ArrayEnd::Resource => true,
    }
}

impl<'a> Encoder<'a> {
    /// Passes over the value that tells whether another element follows.
    fn next_more(&mut self) -> Result<bool, CodingFault>
        ensures { Gives flag result (encoding_of self.new)
            (spec.next_of spec.more_in (encoding_of self.old)) }
    {
        let Some(value) = self.next_value() else {
            return Err(CodingFault::Misfit);
        };
        match value {
            Value::Element => Ok(true),
            Value::NoElement => Ok(false),
            _ => Err(CodingFault::Misfit),
        }
    }

    /// Passes over a case, and returns its place.
    fn next_case(&mut self) -> Result<usize, CodingFault>
        ensures { Gives same result (encoding_of self.new)
            (spec.next_of spec.case_in (encoding_of self.old)) }
    {
        let Some(value) = self.next_value() else {
            return Err(CodingFault::Misfit);
        };
        match value {
            Value::Case(place) => Ok(*place),
            _ => Err(CodingFault::Misfit),
        }
    }

    /// Begins a block, which has counts of its own, and returns those of the block around it.
    fn begin_block(&mut self) -> Vec<u32>
        ensures begun { encoding_of self.new ≡ spec.with_counts [] (encoding_of self.old) }
        ensures outer { result.items ≡ (encoding_of self.old).counts }
    {
        replace(&mut self.counts, Vec::new(self.alloc))
    }

    /// Ends a block: the counts are again those of the block around it.
    fn end_block(&mut self, outer: Vec<u32>)
        ensures { encoding_of self.new ≡ spec.with_counts outer.items (encoding_of self.old) }
    {
        self.counts = outer;
    }

    /// Writes a block.
    #[cycle(encode)]
    #[tactic(auto, using(crate::proofs::Turns::written_block_on))]
    fn write_block(&mut self, depth: u8, blocks: &[Block], block: usize) -> Result<(), CodingFault>
        ensures { LeadsTo result (encoding_of self.new)
            (spec.encoded depth (blocks_of blocks.now) block (encoding_of self.old)) }
    {
        if depth == 0 {
            return Err(CodingFault::Misfit);
        }
        let Some(fields) = fields_in(blocks, block) else {
            return Err(CodingFault::Misfit);
        };
        self.write_alone(depth - 1, blocks, fields)
    }

    /// Writes the fields of a block, which has counts of its own.
    #[cycle(encode)]
    fn write_alone(
        &mut self,
        depth: u8,
        blocks: &[Block],
        fields: &[Field],
    ) -> Result<(), CodingFault>
        ensures { LeadsTo result (encoding_of self.new) (spec.encoded_alone (spec.encoded depth
            (blocks_of blocks.now)) (fields_of fields.now) (encoding_of self.old)) }
    {
        let outer = self.begin_block();
        self.write_fields(depth, blocks, fields)?;
        self.end_block(outer);
        Ok(())
    }

    /// Writes fields in turn.
    #[cycle(encode)]
    fn write_fields(
        &mut self,
        depth: u8,
        blocks: &[Block],
        fields: &[Field],
    ) -> Result<(), CodingFault>
        ensures { LeadsTo result (encoding_of self.new) (spec.encoded_fields (spec.encoded depth
            (blocks_of blocks.now)) (fields_of fields.now) (encoding_of self.old)) }
    {
        for field in fields {
            self.write_field(depth, blocks, field)?;
        }
        Ok(())
    }

    /// Writes a field.
    #[cycle(encode)]
    fn write_field(&mut self, depth: u8, blocks: &[Block], field: &Field) -> Result<(), CodingFault>
        ensures { LeadsTo result (encoding_of self.new) (spec.encoded_field (spec.encoded depth
            (blocks_of blocks.now)) (field_of field.now) (encoding_of self.old)) }
    {
        match field {
            Field::Run(run) => self.write_run(run),
            Field::Fill(count) => self.write_fill(*count as usize),
            Field::Align(boundary) => self.write_padding(*boundary),
            Field::Text(text) => self.write_text(text.end),
            Field::Point => self.write_coordinates(2),
            Field::Rect => self.write_coordinates(4),
            Field::Array(array) => self.write_array(depth, blocks, array.end, array.block),
            Field::Switch(switch) => self.write_switch(depth, blocks, switch.cases.as_slice()),
        }
    }

    /// Writes an array.
    #[cycle(encode)]
    #[tactic(auto, unfolding(crate::specs::Encoding::encoded_array))]
    fn write_array(
        &mut self,
        depth: u8,
        blocks: &[Block],
        end: ArrayEnd,
        block: usize,
    ) -> Result<(), CodingFault>
        ensures { LeadsTo result (encoding_of self.new) (spec.encoded_array
            (spec.encoded depth (blocks_of blocks.now) block) (end_of end) (encoding_of self.old)) }
    {
        let count = self.write_elements(depth, blocks, end, block)?;
        if may_have(end, self.counts.as_slice(), count) {
            Ok(())
        } else {
            Err(CodingFault::Misfit)
        }
    }

    /// Writes the elements of an array, and returns how many they are.
    #[cycle(encode)]
    #[tactic(auto, using(crate::proofs::Turns::each_on))]
    fn write_elements(
        &mut self,
        depth: u8,
        blocks: &[Block],
        end: ArrayEnd,
        block: usize,
    ) -> Result<usize, CodingFault>
        ensures { Gives same result (encoding_of self.new)
            (spec.encoded_elements (spec.encoded depth (blocks_of blocks.now) block) (end_of end) 0
            (length self.old.values.now) (encoding_of self.old)) }
    {
        let most = self.values.len();
        for count in 0..most {
            if !self.next_more()? {
                return Ok(count);
            }
            self.write_element(depth, blocks, end, block)?;
        }
        Err(CodingFault::Misfit)
    }

    /// Writes an element.
    #[cycle(encode)]
    fn write_element(
        &mut self,
        depth: u8,
        blocks: &[Block],
        end: ArrayEnd,
        block: usize,
    ) -> Result<(), CodingFault>
        ensures { LeadsTo result (encoding_of self.new) (spec.encoded_element
            (spec.encoded depth (blocks_of blocks.now) block) (end_of end) (encoding_of self.old)) }
    {
        let before = self.bytes.len();
        self.write_block(depth, blocks, block)?;
        if is_element(end, before, self.bytes.as_slice()) {
            Ok(())
        } else {
            Err(CodingFault::Misfit)
        }
    }

    /// Writes one of several cases.
    #[cycle(encode)]
    #[tactic(auto, unfolding(crate::specs::Encoding::encoded_switch))]
    fn write_switch(
        &mut self,
        depth: u8,
        blocks: &[Block],
        cases: &[Case],
    ) -> Result<(), CodingFault>
        ensures { LeadsTo result (encoding_of self.new) (spec.encoded_switch (spec.encoded depth
            (blocks_of blocks.now)) (map case_of cases.now) (encoding_of self.old)) }
    {
        let place = self.next_case()?;
        let Some(case) = cases.get(place) else {
            return Err(CodingFault::Misfit);
        };
        self.write_block(depth, blocks, case.block)
    }
}

/// Returns the bytes of a resource with values, by a declaration.
///
/// # Errors
///
/// Returns `Misfit` where the values are none of the declared type, where an element would end its
/// array, or where the bytes are more than 16 MB; `HostMemory` where the host is out of memory.
#[tactic(auto, unfolding(crate::specs::Encoding::datum_of_values))]
pub fn encode(
    alloc: Global,
    declaration: &Declaration,
    values: &[Value],
) -> Result<Vec<u8>, CodingFault>
    ensures { Returns bytes_in result
        (spec.datum_of_values (declaration_of declaration.now) (values_of values.now)) }
{
    let mut encoder = Encoder::new(alloc, values);
    encoder.write_fields(
        MOST_DEPTH,
        declaration.blocks.as_slice(),
        declaration.fields.as_slice(),
    )?;
    if encoder.values.is_empty() {
        Ok(encoder.bytes)
    } else {
        Err(CodingFault::Misfit)
    }
}
