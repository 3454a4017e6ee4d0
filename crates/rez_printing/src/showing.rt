//! The text of a resource's values.

ghost use Rattle.std.specs.Prelude.{◌≡◌, map};
ghost use Rattle.rez_types.specs.View.{fields_of, field_of, blocks_of, case_of, declaration_of};
ghost use Rattle.rez_types.specs.View.{values_of};
ghost use Rattle.rez_types.specs.Leads.{Gives, LeadsTo, Returns, bytes_in, same};
ghost use Rattle.rez_printing.specs.Leads.{showing_of};
ghost use Rattle.rez_printing.specs.Showing as spec;

use crate::layout::Layout;
use crate::printer::Printer;
use crate::style::Style;
use rez_types::{Block, Case, CodingFault, Declaration, Field, Value};
use std::alloc::Global;

/// How deep blocks may stand in one another.
const MOST_DEPTH: u8 = 8;

impl<'a> Printer<'a> {
    /// Prints a block.
    #[cycle(print)]
    #[tactic(auto, using(crate::proofs::Onward::block_on))]
    fn print_block(&mut self, depth: u8, blocks: &[Block], block: usize) -> Result<(), CodingFault>
        ensures { LeadsTo result (showing_of self.new)
            (spec.shown_block depth (blocks_of blocks.now) block (showing_of self.old)) }
    {
        if depth == 0 {
            return Err(CodingFault::Misfit);
        }
        let Some(found) = blocks.get(block) else {
            return Err(CodingFault::Misfit);
        };
        self.print_fields(depth - 1, blocks, Layout::Flat, found.fields.as_slice())
    }

    /// Prints fields in turn.
    #[cycle(print)]
    fn print_fields(
        &mut self,
        depth: u8,
        blocks: &[Block],
        layout: Layout,
        fields: &[Field],
    ) -> Result<(), CodingFault>
        ensures { LeadsTo result (showing_of self.new) (spec.shown_fields (spec.shown_block depth
            (blocks_of blocks.now)) layout (fields_of fields.now) (showing_of self.old)) }
    {
        for field in fields {
            self.print_field(depth, blocks, layout, field)?;
        }
        Ok(())
    }

    /// Prints a field.
    #[cycle(print)]
    fn print_field(
        &mut self,
        depth: u8,
        blocks: &[Block],
        layout: Layout,
        field: &Field,
    ) -> Result<(), CodingFault>
        ensures { LeadsTo result (showing_of self.new) (spec.shown_field (spec.shown_block depth
            (blocks_of blocks.now)) layout (field_of field.now) (showing_of self.old)) }
    {
        match field {
            Field::Run(run) => self.print_parts(layout, run.parts.as_slice()),
            Field::Fill(_) => self.print_fill(),
            Field::Align(_) => self.print_fill(),
            Field::Text(text) => self.print_text(layout, text),
            Field::Point => self.print_coordinates(layout, 2),
            Field::Rect => self.print_coordinates(layout, 4),
            Field::Array(array) => {
                self.print_array(depth, blocks, layout, array.name.as_slice(), array.block)
            }
            Field::Switch(switch) => {
                self.print_switch(depth, blocks, layout, switch.cases.as_slice())
            }
        }
    }

    /// Prints an array.
    #[cycle(print)]
    #[tactic(auto, unfolding(crate::specs::Showing::shown_array))]
    fn print_array(
        &mut self,
        depth: u8,
        blocks: &[Block],
        layout: Layout,
        name: &[u8],
        block: usize,
    ) -> Result<(), CodingFault>
        ensures { LeadsTo result (showing_of self.new) (spec.shown_array (spec.shown_block depth
            (blocks_of blocks.now) block) name.now layout (showing_of self.old)) }
    {
        self.open(b"{", layout.first())?;
        let place = self.text.len();
        let count = self.print_elements(depth, blocks, layout, block)?;
        self.count(layout, name, place, count)?;
        self.close(layout.array_end(), layout)?;
        Ok(())
    }

    /// Prints the elements of an array, with a gap before each but the first one, and returns how
    /// many they are.
    #[cycle(print)]
    #[tactic(auto, using(crate::proofs::Onward::elements_on))]
    fn print_elements(
        &mut self,
        depth: u8,
        blocks: &[Block],
        layout: Layout,
        block: usize,
    ) -> Result<usize, CodingFault>
        ensures { Gives same result (showing_of self.new) (spec.all_elements
            (spec.shown_block depth (blocks_of blocks.now) block) layout (showing_of self.old)) }
    {
        let most = self.values.len();
        for count in 0..most {
            if !self.next_more()? {
                return Ok(count);
            }
            self.number(layout, count)?;
            self.print_block(depth, blocks, block)?;
            self.gap = layout.next();
        }
        Err(CodingFault::Misfit)
    }

    /// Prints one of several cases.
    #[cycle(print)]
    #[tactic(auto, unfolding(crate::specs::Showing::shown_switch))]
    fn print_switch(
        &mut self,
        depth: u8,
        blocks: &[Block],
        layout: Layout,
        cases: &[Case],
    ) -> Result<(), CodingFault>
        ensures { LeadsTo result (showing_of self.new) (spec.shown_switch (spec.shown_block depth
            (blocks_of blocks.now)) layout (map case_of cases.now) (showing_of self.old)) }
    {
        let place = self.next_case()?;
        let Some(case) = cases.get(place) else {
            return Err(CodingFault::Misfit);
        };
        self.open_case(case)?;
        self.print_block(depth, blocks, case.block)?;
        self.close(b" }", layout)?;
        Ok(())
    }
}

/// Returns the text of a resource's values, by a declaration and in a style: what stands between
/// the braces of a statement `resource`.
///
/// # Errors
///
/// Returns `Misfit` where the values are none of the declaration, and `HostMemory` where the host
/// is out of memory.
#[tactic(auto, unfolding(crate::specs::Showing::shown))]
pub fn show(
    alloc: Global,
    style: Style,
    declaration: &Declaration,
    values: &[Value],
) -> Result<Vec<u8>, CodingFault>
    ensures { Returns bytes_in result
        (spec.shown style (declaration_of declaration.now) (values_of values.now)) }
{
    let mut printer = Printer::new(alloc, style, values);
    printer.print_fields(
        MOST_DEPTH,
        declaration.blocks.as_slice(),
        Layout::Lines,
        declaration.fields.as_slice(),
    )?;
    if !printer.values.is_empty() {
        return Err(CodingFault::Misfit);
    }
    let end = printer.gap.last_line();
    printer.text.extend_from_slice(end)?;
    Ok(printer.text)
}
