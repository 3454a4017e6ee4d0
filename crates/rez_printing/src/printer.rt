//! A printer of values: the fields that hold no others.

ghost use Rattle.std.specs.Prelude.{◌≡◌, ◌≤◌, ◌<◌, ◌^◌, map, drop, Some, None, IfSome, IfNone};
ghost use Rattle.std.specs.Prelude.{IfOk, OnOk};
ghost use Rattle.byteorder.specs.Endian.{big_bytes};
ghost use Rattle.rez_types.specs.declared.declaration.Part.TheVariants as parts;
ghost use Rattle.rez_types.specs.View.{case_of, part_of, number_of, text_of, value_of, values_of};
ghost use Rattle.rez_types.specs.Leads.{LeadsTo, Gives, same, flag};
ghost use Rattle.rez_types.specs.Encoding.{more_in, case_in};
ghost use Rattle.rez_printing.specs.declared.layout.Layout.TheVariants as layouts;
ghost use Rattle.rez_printing.specs.Leads.{showing_of};
ghost use Rattle.rez_printing.specs.Pieces.{integer_text, named_text, signed_number};
ghost use Rattle.rez_printing.specs.Showing as spec;

use crate::layout::{Gap, Layout};
use crate::pieces::{
    are_zero, push_array_comment, push_element_comment, push_fill_comment, push_integer,
    push_signed, push_text,
};
use crate::style::{Numbering, Style};
use rez_types::{Case, CodingFault, Integer, Part, Text, Value, Width, power};
use std::alloc::{AllocError, Global};

/// How many bits a coordinate has.
const COORDINATE: Width = Width { bits: 16 };

/// A printer of values.
#[derive(Drop)]
pub(crate) struct Printer<'a> {
    /// In which style they are printed.
    pub style: Style,
    /// The values that are still to be printed.
    pub values: &'a [Value],
    /// The text so far.
    pub text: Vec<u8>,
    /// What stands before the next value that is stated.
    pub gap: Gap,
}

/// Returns the bytes from a place on.
fn bytes_after(alloc: Global, text: &[u8], place: usize) -> Result<Vec<u8>, AllocError>
    ensures { IfOk result (λ bytes. bytes.items ≡ drop place text.now) }
{
    match text.get(place..) {
        Some(bytes) => bytes.to_vec(alloc),
        None => Ok(Vec::new(alloc)),
    }
}

impl<'a> Printer<'a> {
    /// Returns a printer before the first of the values.
    pub fn new(alloc: Global, style: Style, values: &'a [Value]) -> Printer<'a>
        ensures { showing_of result ≡ spec.unshown style (values_of values.now) }
    {
        Printer {
            style,
            values,
            text: Vec::new(alloc),
            gap: Gap::FirstLine,
        }
    }

    /// Passes over the next value, and returns it.
    #[tactic(auto, unfolding(crate::specs::Showing::next_value))]
    pub fn next_value(&mut self) -> Option<&'a Value>
        ensures value { IfSome result (λ v.
            spec.next_value (showing_of self.old) ≡ Some (value_of v.now, showing_of self.new)) }
        ensures none { IfNone result (spec.next_value (showing_of self.old) ≡ None) }
    {
        match self.values {
            [first, rest @ ..] => {
                self.values = rest;
                Some(first)
            }
            _ => None,
        }
    }

    /// Passes over a number of at most so many bits, and returns it.
    #[tactic(auto, unfolding(crate::specs::Showing::next_number))]
    fn next_number(&mut self, width: Width) -> Result<u32, CodingFault>
        ensures { Gives same result (showing_of self.new)
            (spec.next_number width.bits (showing_of self.old)) }
    {
        let Some(value) = self.next_value() else {
            return Err(CodingFault::Misfit);
        };
        let Value::Number(number) = value else {
            return Err(CodingFault::Misfit);
        };
        if power(width.bits) <= *number as u64 {
            return Err(CodingFault::Misfit);
        }
        Ok(*number)
    }

    /// Passes over the value that tells whether another element follows.
    pub fn next_more(&mut self) -> Result<bool, CodingFault>
        ensures { Gives flag result (showing_of self.new)
            (spec.next_of more_in (showing_of self.old)) }
    {
        let Some(value) = self.next_value() else {
            return Err(CodingFault::Misfit);
        };
        match value {
            Value::Element => Ok(true),
            Value::NoElement => Ok(false),
            _ => Err(CodingFault::Misfit),
        }
    }

    /// Passes over a case, and returns its place.
    pub fn next_case(&mut self) -> Result<usize, CodingFault>
        ensures { Gives same result (showing_of self.new)
            (spec.next_of case_in (showing_of self.old)) }
    {
        let Some(value) = self.next_value() else {
            return Err(CodingFault::Misfit);
        };
        match value {
            Value::Case(place) => Ok(*place),
            _ => Err(CodingFault::Misfit),
        }
    }

    /// Begins a text that goes on with values, before the first of which a gap stands.
    #[tactic(auto, unfolding(crate::specs::Showing::opened))]
    pub fn open(&mut self, more: &[u8], first: Gap) -> Result<(), AllocError>
        ensures { OnOk result (showing_of self.new
            ≡ spec.opened more.now first (showing_of self.old)) }
    {
        self.text.extend_from_slice(self.gap.text())?;
        self.text.extend_from_slice(more)?;
        self.gap = first;
        Ok(())
    }

    /// Begins the values of a case.
    #[tactic(auto, unfolding(crate::specs::Showing::opened))]
    pub fn open_case(&mut self, case: &Case) -> Result<(), AllocError>
        ensures { OnOk result (showing_of self.new
            ≡ spec.opened_case (case_of case.now) (showing_of self.old)) }
    {
        self.text.extend_from_slice(self.gap.text())?;
        self.text.extend_from_slice(case.name.as_slice())?;
        self.text.extend_from_slice(b" {")?;
        self.gap = Gap::Blank;
        Ok(())
    }

    /// Ends such a text.
    #[tactic(auto, unfolding(crate::specs::Showing::closed))]
    pub fn close(&mut self, more: &[u8], layout: Layout) -> Result<(), AllocError>
        ensures { OnOk result (showing_of self.new
            ≡ spec.closed more.now layout (showing_of self.old)) }
    {
        self.text.extend_from_slice(more)?;
        self.gap = layout.between();
        Ok(())
    }

    /// States an integer.
    #[tactic(auto, unfolding(crate::specs::Showing::opened))]
    fn state_integer(
        &mut self,
        layout: Layout,
        integer: &Integer,
        number: u32,
    ) -> Result<(), AllocError>
        ensures { OnOk result (showing_of self.new
            ≡ spec.stated (integer_text integer.now.form integer.now.width.bits
            (map number_of integer.now.constants.items) number) layout (showing_of self.old)) }
    {
        self.text.extend_from_slice(self.gap.text())?;
        push_integer(&mut self.text, integer, number)?;
        self.gap = layout.between();
        Ok(())
    }

    /// States a string.
    #[tactic(auto, unfolding(crate::specs::Showing::opened))]
    fn state_text(&mut self, layout: Layout, text: &Text, bytes: &[u8]) -> Result<(), AllocError>
        ensures { OnOk result (showing_of self.new
            ≡ spec.stated (named_text self.old.style layout text.now.is_hex
            (map text_of text.now.constants.items) bytes.now) layout (showing_of self.old)) }
    {
        self.text.extend_from_slice(self.gap.text())?;
        push_text(&mut self.text, self.style, layout, text, bytes)?;
        self.gap = layout.between();
        Ok(())
    }

    /// States a coordinate.
    #[tactic(auto, unfolding(crate::specs::Showing::opened))]
    fn state_coordinate(&mut self, number: u32) -> Result<(), AllocError>
        ensures { OnOk result (showing_of self.new ≡ spec.stated
            (signed_number 16 number) layouts.Flat (showing_of self.old)) }
    {
        self.text.extend_from_slice(self.gap.text())?;
        push_signed(&mut self.text, COORDINATE, number)?;
        self.gap = Layout::Flat.between();
        Ok(())
    }

    /// Prints the bytes of a fill or an alignment as a comment.
    #[tactic(auto, unfolding(crate::specs::Showing::commented))]
    fn comment(&mut self, bytes: &[u8]) -> Result<(), AllocError>
        ensures { OnOk result (showing_of self.new
            ≡ spec.commented bytes.now (showing_of self.old)) }
    {
        self.text.extend_from_slice(self.gap.before_fill())?;
        push_fill_comment(&mut self.text, bytes)?;
        self.gap = self.gap.after_fill();
        Ok(())
    }

    /// Prints the bytes of a fill or an alignment, where they aren't all 0.
    #[tactic(auto, unfolding(crate::specs::Showing::filled))]
    fn fill(&mut self, bytes: &[u8]) -> Result<(), AllocError>
        ensures { OnOk result (showing_of self.new ≡ spec.filled bytes.now (showing_of self.old)) }
    {
        if are_zero(bytes) {
            return Ok(());
        }
        self.comment(bytes)
    }

    /// Prints the bits of a fill as so many bytes.
    fn fill_number(&mut self, count: u8, number: u32) -> Result<(), AllocError>
        requires { count ≤ 4 }
        ensures { OnOk result (showing_of self.new
            ≡ spec.filled (big_bytes count number) (showing_of self.old)) }
    {
        let bytes = number.to_be_bytes();
        self.fill(&bytes[4 - count as usize..])
    }

    /// Prints the number of an element that so many others precede, where elements are numbered.
    #[tactic(auto, unfolding(crate::specs::Showing::opened))]
    pub fn number(&mut self, layout: Layout, count: usize) -> Result<(), AllocError>
        requires { count < 2 ^ 63 }
        ensures { OnOk result (showing_of self.new
            ≡ spec.numbered layout count (showing_of self.old)) }
    {
        match self.style.numbering {
            Numbering::None => {}
            Numbering::Elements => {
                self.text.extend_from_slice(self.gap.text())?;
                push_element_comment(&mut self.text, count)?;
                self.gap = layout.first();
            }
        }
        Ok(())
    }

    /// Says after the brace that opens an array, at a place of the text, how many elements it has.
    #[tactic(auto, unfolding(crate::specs::Showing::counted_at))]
    fn count_at(
        &mut self,
        layout: Layout,
        name: &[u8],
        place: usize,
        count: usize,
    ) -> Result<(), AllocError>
        ensures { OnOk result (showing_of self.new
            ≡ spec.counted_at layout name.now place count (showing_of self.old)) }
    {
        let after = bytes_after(*self.text.allocator(), self.text.as_slice(), place)?;
        self.text.truncate(place);
        self.text.extend_from_slice(layout.array_gap())?;
        push_array_comment(&mut self.text, name, count)?;
        self.text.extend_from_slice(after.as_slice())?;
        Ok(())
    }

    /// Says this where elements are numbered.
    pub fn count(
        &mut self,
        layout: Layout,
        name: &[u8],
        place: usize,
        count: usize,
    ) -> Result<(), AllocError>
        ensures { OnOk result (showing_of self.new
            ≡ spec.counted layout name.now place count (showing_of self.old)) }
    {
        match self.style.numbering {
            Numbering::None => Ok(()),
            Numbering::Elements => self.count_at(layout, name, place, count),
        }
    }

    /// Prints the next integer.
    #[tactic(auto, unfolding(crate::specs::Showing::shown_integer))]
    fn print_integer(&mut self, layout: Layout, integer: &Integer) -> Result<(), CodingFault>
        ensures { LeadsTo result (showing_of self.new)
            (spec.shown_part layout (part_of (parts.Integer integer.now)) (showing_of self.old)) }
    {
        let number = self.next_number(integer.width)?;
        self.state_integer(layout, integer, number)?;
        Ok(())
    }

    /// Prints the next bits of a fill.
    #[tactic(auto, unfolding(crate::specs::Showing::shown_bits))]
    fn print_bits(&mut self, width: Width) -> Result<(), CodingFault>
        ensures { LeadsTo result (showing_of self.new)
            (spec.shown_bits width.bits (showing_of self.old)) }
    {
        let number = self.next_number(width)?;
        self.fill_number((width.bits + 7) / 8, number)?;
        Ok(())
    }

    /// Passes over the next count, which no statement states.
    #[tactic(auto, unfolding(crate::specs::Showing::passed_count))]
    fn pass_count(&mut self) -> Result<(), CodingFault>
        ensures { LeadsTo result (showing_of self.new) (spec.passed_count (showing_of self.old)) }
    {
        let Some(value) = self.next_value() else {
            return Err(CodingFault::Misfit);
        };
        match value {
            Value::Count(_) => Ok(()),
            _ => Err(CodingFault::Misfit),
        }
    }

    /// Prints a part of a run.
    fn print_part(&mut self, layout: Layout, part: &Part) -> Result<(), CodingFault>
        ensures { LeadsTo result (showing_of self.new)
            (spec.shown_part layout (part_of part.now) (showing_of self.old)) }
    {
        match part {
            Part::Integer(integer) => self.print_integer(layout, integer),
            Part::Constant(_) => Ok(()),
            Part::Count(_) => self.pass_count(),
            Part::Fill(width) => self.print_bits(*width),
        }
    }

    /// Prints the parts of a run in turn.
    pub fn print_parts(&mut self, layout: Layout, parts: &[Part]) -> Result<(), CodingFault>
        ensures { LeadsTo result (showing_of self.new)
            (spec.shown_parts layout (map part_of parts.now) (showing_of self.old)) }
    {
        for part in parts {
            self.print_part(layout, part)?;
        }
        Ok(())
    }

    /// Prints the next bytes of a fill or an alignment.
    #[tactic(auto, unfolding(crate::specs::Showing::shown_fill))]
    pub fn print_fill(&mut self) -> Result<(), CodingFault>
        ensures { LeadsTo result (showing_of self.new) (spec.shown_fill (showing_of self.old)) }
    {
        let Some(value) = self.next_value() else {
            return Err(CodingFault::Misfit);
        };
        let Value::Filled(bytes) = value else {
            return Err(CodingFault::Misfit);
        };
        self.fill(bytes.as_slice())?;
        Ok(())
    }

    /// Prints the next string.
    #[tactic(auto, unfolding(crate::specs::Showing::shown_text))]
    pub fn print_text(&mut self, layout: Layout, text: &Text) -> Result<(), CodingFault>
        ensures { LeadsTo result (showing_of self.new) (spec.shown_text layout text.now.is_hex
            (map text_of text.now.constants.items) (showing_of self.old)) }
    {
        let Some(value) = self.next_value() else {
            return Err(CodingFault::Misfit);
        };
        let Value::Text(bytes) = value else {
            return Err(CodingFault::Misfit);
        };
        self.state_text(layout, text, bytes.as_slice())?;
        Ok(())
    }

    /// Prints so many coordinates.
    #[tactic(auto, using(crate::proofs::Onward::numbers_on))]
    fn print_numbers(&mut self, count: u8) -> Result<(), CodingFault>
        ensures { LeadsTo result (showing_of self.new)
            (spec.shown_numbers count (showing_of self.old)) }
    {
        for i in 0..count {
            let number = self.next_number(COORDINATE)?;
            self.state_coordinate(number)?;
        }
        Ok(())
    }

    /// Prints a point or a rectangle.
    #[tactic(auto, unfolding(crate::specs::Showing::shown_coordinates))]
    pub fn print_coordinates(&mut self, layout: Layout, count: u8) -> Result<(), CodingFault>
        ensures { LeadsTo result (showing_of self.new)
            (spec.shown_coordinates layout count (showing_of self.old)) }
    {
        self.open(b"{", Gap::Nothing)?;
        self.print_numbers(count)?;
        self.close(b"}", layout)?;
        Ok(())
    }
}
