//! The values that the tokens of a statement `resource` state.

ghost use Rattle.std.specs.Prelude.{◌≡◌, [], length, map, option_map, slice_get};
ghost use Rattle.rez_types.specs.Leads.{same};
ghost use Rattle.rez_types.specs.View.{fields_of, field_of, blocks_of, end_of, case_of};
ghost use Rattle.rez_types.specs.View.{declaration_of};
ghost use Rattle.rez_values.specs.View.{Takes, TakesTo, Returns, taking_of, place_of, values_in};
ghost use Rattle.rez_tokens.specs.View.{token_of};
ghost use Rattle.rez_values.specs.Taking.{lexeme};
ghost use Rattle.rez_values.specs.Taken as spec;

use crate::fault::{TakeFault, ValueFault};
use crate::naming::place_of_case;
use crate::taker::{CountPlace, Taker};
use rez_tokens::{Lexeme, Token};
use rez_types::{ArrayEnd, Block, Case, Declaration, Field, Value, power};
use std::alloc::Global;
use std::mem::replace;

/// How deep blocks may stand in one another.
const MOST_DEPTH: u8 = 8;

/// Returns the fields of a block.
fn fields_in(blocks: &[Block], block: usize) -> Option<&[Field]>
    ensures { option_map (λ fields. fields_of fields.now) result
        ≡ slice_get (blocks_of blocks.now) block }
{
    let found = blocks.get(block)?;
    Some(found.fields.as_slice())
}

impl<'a> Taker<'a> {
    /// Sets the value of a count.
    fn set_count(&mut self, number: u32, count: CountPlace)
        ensures { taking_of self.new
            ≡ spec.with_count number (place_of count) (taking_of self.old) }
    {
        if count.place < self.values.len() {
            self.values[count.place] = Value::Count(number);
        }
    }

    /// Returns a count of the block.
    fn count_at(&self, place: usize) -> Option<CountPlace>
        ensures { option_map place_of result ≡ slice_get (taking_of self.now).counts place }
    {
        match self.counts.get(place) {
            Some(count) => Some(*count),
            None => None,
        }
    }

    /// Counts the elements of an array.
    fn count_by(&mut self, number: usize, count: Option<CountPlace>) -> Result<(), TakeFault>
        ensures { Takes result (taking_of self.new)
            (spec.counted_by number (option_map place_of count) (taking_of self.old)) }
    {
        let Some(count) = count else {
            return Err(self.refuse(ValueFault::Unsound));
        };
        if power(count.width.bits) <= number as u64 {
            return Err(self.refuse(ValueFault::ManyElements));
        }
        self.set_count(number as u32, count);
        Ok(())
    }

    /// Counts the elements of an array that ends so.
    fn count(&mut self, end: ArrayEnd, number: usize) -> Result<(), TakeFault>
        ensures { Takes result (taking_of self.new)
            (spec.counted (end_of end) number (taking_of self.old)) }
    {
        match end {
            ArrayEnd::Fixed(count) => {
                if number == count as usize {
                    Ok(())
                } else {
                    Err(self.refuse(ValueFault::ElementsNeeded(count)))
                }
            }
            ArrayEnd::Counted(place) => {
                let count = self.count_at(place);
                self.count_by(number, count)
            }
            ArrayEnd::Constant(_) => Ok(()),
            ArrayEnd::Resource => Ok(()),
        }
    }

    /// Returns the place of the case that the next token names.
    fn case(&self, cases: &[Case]) -> Option<usize>
        ensures { result ≡ spec.case_in (map case_of cases.now) (lexeme (taking_of self.now)) }
    {
        match self.bare() {
            [
                Token {
                    lexeme: Lexeme::Word(word),
                    ..
                },
                ..
            ] => place_of_case(word.as_slice(), cases),
            _ => None,
        }
    }

    /// Begins a block, which has counts of its own, and returns those of the block around it.
    fn begin_block(&mut self) -> Vec<CountPlace>
        ensures begun { taking_of self.new ≡ spec.with_counts [] (taking_of self.old) }
        ensures outer { map place_of result.items ≡ (taking_of self.old).counts }
    {
        replace(&mut self.counts, Vec::new(self.alloc))
    }

    /// Ends a block: the counts are again those of the block around it.
    fn end_block(&mut self, outer: Vec<CountPlace>)
        ensures { taking_of self.new
            ≡ spec.with_counts (map place_of outer.items) (taking_of self.old) }
    {
        self.counts = outer;
    }

    /// Takes a block.
    #[cycle(take)]
    #[tactic(auto, using(crate::proofs::Turns::block_on))]
    fn take_block(&mut self, depth: u8, blocks: &[Block], block: usize) -> Result<(), TakeFault>
        ensures { Takes result (taking_of self.new)
            (spec.block_taken depth (blocks_of blocks.now) block (taking_of self.old)) }
    {
        if depth == 0 {
            return Err(self.refuse(ValueFault::Unsound));
        }
        let Some(fields) = fields_in(blocks, block) else {
            return Err(self.refuse(ValueFault::Unsound));
        };
        self.take_alone(depth - 1, blocks, fields)
    }

    /// Takes the fields of a block, which has counts of its own.
    #[cycle(take)]
    fn take_alone(&mut self, depth: u8, blocks: &[Block], fields: &[Field]) -> Result<(), TakeFault>
        ensures { Takes result (taking_of self.new) (spec.taken_alone (spec.block_taken depth
            (blocks_of blocks.now)) (fields_of fields.now) (taking_of self.old)) }
    {
        let outer = self.begin_block();
        self.take_fields(depth, blocks, fields)?;
        self.end_block(outer);
        Ok(())
    }

    /// Takes fields in turn.
    #[cycle(take)]
    fn take_fields(
        &mut self,
        depth: u8,
        blocks: &[Block],
        fields: &[Field],
    ) -> Result<(), TakeFault>
        ensures { Takes result (taking_of self.new) (spec.fields_taken (spec.block_taken depth
            (blocks_of blocks.now)) (fields_of fields.now) (taking_of self.old)) }
    {
        for field in fields {
            self.take_field(depth, blocks, field)?;
        }
        Ok(())
    }

    /// Takes a field.
    #[cycle(take)]
    fn take_field(&mut self, depth: u8, blocks: &[Block], field: &Field) -> Result<(), TakeFault>
        ensures { Takes result (taking_of self.new) (spec.field_taken (spec.block_taken depth
            (blocks_of blocks.now)) (field_of field.now) (taking_of self.old)) }
    {
        match field {
            Field::Run(run) => self.take_parts(run.parts.as_slice()),
            Field::Fill(count) => self.take_fill(*count as usize),
            Field::Align(boundary) => self.take_alignment(*boundary),
            Field::Text(text) => self.take_text(text),
            Field::Point => self.take_corners(ValueFault::PointNeeded, 2),
            Field::Rect => self.take_corners(ValueFault::RectangleNeeded, 4),
            Field::Array(array) => self.take_array(depth, blocks, array.end, array.block),
            Field::Switch(switch) => self.take_switch(depth, blocks, switch.cases.as_slice()),
        }
    }

    /// Takes an array.
    #[cycle(take)]
    #[tactic(auto, unfolding(crate::specs::Taken::array_taken))]
    fn take_array(
        &mut self,
        depth: u8,
        blocks: &[Block],
        end: ArrayEnd,
        block: usize,
    ) -> Result<(), TakeFault>
        ensures { Takes result (taking_of self.new) (spec.array_taken (spec.block_taken depth
            (blocks_of blocks.now) block) (end_of end) (taking_of self.old)) }
    {
        self.separate(ValueFault::SeparatorNeeded)?;
        self.open(ValueFault::ArrayNeeded)?;
        let number = self.take_elements(depth, blocks, block)?;
        self.count(end, number)?;
        self.put(Value::NoElement)?;
        self.close(ValueFault::ClosingBraceNeeded)
    }

    /// Takes the elements of an array, and returns how many they are.
    #[cycle(take)]
    #[tactic(auto, using(crate::proofs::Turns::elements_on))]
    fn take_elements(
        &mut self,
        depth: u8,
        blocks: &[Block],
        block: usize,
    ) -> Result<usize, TakeFault>
        ensures { TakesTo same result (taking_of self.new)
            (spec.elements_taken (spec.block_taken depth (blocks_of blocks.now) block) 0
            (length self.old.tokens.now) (taking_of self.old)) }
    {
        let most = self.tokens.len();
        for count in 0..most {
            if self.closes() {
                return Ok(count);
            }
            self.take_element(depth, blocks, block)?;
        }
        Err(self.refuse(ValueFault::ClosingBraceNeeded))
    }

    /// Takes an element.
    #[cycle(take)]
    #[tactic(auto, unfolding(crate::specs::Taken::element_taken))]
    fn take_element(&mut self, depth: u8, blocks: &[Block], block: usize) -> Result<(), TakeFault>
        ensures { Takes result (taking_of self.new) (spec.element_taken
            (spec.block_taken depth (blocks_of blocks.now) block) (taking_of self.old)) }
    {
        self.begin_element();
        self.put(Value::Element)?;
        self.take_block(depth, blocks, block)
    }

    /// Takes one of several cases.
    #[cycle(take)]
    #[tactic(auto, unfolding(crate::specs::Taken::switch_taken))]
    fn take_switch(&mut self, depth: u8, blocks: &[Block], cases: &[Case]) -> Result<(), TakeFault>
        ensures { Takes result (taking_of self.new) (spec.switch_taken (spec.block_taken depth
            (blocks_of blocks.now)) (map case_of cases.now) (taking_of self.old)) }
    {
        self.separate(ValueFault::SeparatorNeeded)?;
        let place = self.case(cases);
        self.take_case(depth, blocks, cases, place)
    }

    /// Takes a case, by its place among those of its switch.
    #[cycle(take)]
    fn take_case(
        &mut self,
        depth: u8,
        blocks: &[Block],
        cases: &[Case],
        place: Option<usize>,
    ) -> Result<(), TakeFault>
        ensures { Takes result (taking_of self.new) (spec.case_taken (spec.block_taken depth
            (blocks_of blocks.now)) (map case_of cases.now) place (taking_of self.old)) }
    {
        let Some(place) = place else {
            return Err(self.refuse(ValueFault::CaseNeeded));
        };
        let Some(case) = cases.get(place) else {
            return Err(self.refuse(ValueFault::CaseNeeded));
        };
        self.pass();
        self.put(Value::Case(place))?;
        self.open(ValueFault::OpeningBraceNeeded)?;
        self.take_block(depth, blocks, case.block)?;
        self.close(ValueFault::ClosingBraceNeeded)
    }

    /// Ends the statement: after the last value no token may stand but a separator.
    #[tactic(auto, unfolding(crate::specs::Taken::finished))]
    fn finish(&mut self) -> Result<(), TakeFault>
        ensures { Takes result (taking_of self.new) (spec.finished (taking_of self.old)) }
    {
        self.trail();
        if self.bare().is_empty() {
            Ok(())
        } else {
            Err(self.refuse(ValueFault::NothingMore))
        }
    }
}

/// Returns the values that the tokens of a statement's body state, by the declaration of its type.
///
/// # Errors
///
/// Returns `Wrong` where the tokens state no values of the type, with the line of the token that
/// can't stand there; `HostMemory` where the host is out of memory.
#[tactic(auto, unfolding(crate::specs::Taken::taken))]
pub fn take(
    alloc: Global,
    declaration: &Declaration,
    tokens: &[Token],
) -> Result<Vec<Value>, TakeFault>
    ensures { Returns values_in result
        (spec.taken (declaration_of declaration.now) (map token_of tokens.now)) }
{
    let mut taker = Taker::new(alloc, tokens);
    taker.take_fields(
        MOST_DEPTH,
        declaration.blocks.as_slice(),
        declaration.fields.as_slice(),
    )?;
    taker.finish()?;
    Ok(taker.values)
}
