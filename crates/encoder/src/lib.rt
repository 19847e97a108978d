//! Instruction words made from what a listing shows of them.
#![tactic(auto, unfolding(crate::specs::Computed::encodings))]

ghost use Rattle.std.specs.Prelude.{◌≡◌, true, Some, ◌+◌, ◌*◌, ◌%◌, ◌^◌, ◌<◌, ◌≤◌};
ghost use Rattle.word.specs.Word.{word_of};
ghost use Rattle.isa.specs.Operation.{operation_of};
ghost use Rattle.isa.specs.Format.{placed_in, operation_field};
ghost use Rattle.isa.specs.declared.form.Reading.TheVariants.{Signed};
ghost use Rattle.isa.specs.Used.{least_of};
ghost use Rattle.isa.specs.Places.{fields_at, put_into, Placeable};
ghost use Rattle.encoder.specs.Encode.{chosen, chosen_form, parts_of, all_fit, written, encoding_of, encode_of, given, is_below};
ghost use Rattle.encoder.specs.Fields.{field_fits, fields_fit, fields_bits, guard_fits, guard_bits};

pub mod theorems;

use isa::{OperandField, Operation, Reading, Width};
use machine::Refusal;

/// A condition, as in `egt C7`: the numbers of its register and of the condition. Any may be asked for, and 8 and above is refused.
#[derive(Clone, Copy)]
pub struct Guard {
    pub creg: u32,
    pub condition: u32,
}

/// What a word is to be made from: what a listing shows of it.
#[derive(Clone, Copy)]
pub struct Choice {
    /// The operation, by its number: any may be asked for, and 64 and above is refused.
    pub operation: u32,
    pub condition: Option<Guard>,
    /// The operands in the order in which they are shown, 0 for each that there is not.
    pub operands: [i32; 4],
}

/// The least number that so many bits stand for.
fn least(reading: Reading, bits: u32) -> i64
    requires { (bits ≤ 25) × (reading ≡ Signed → 0 < bits) }
    ensures { result ≡ least_of reading bits }
{
    match reading {
        Reading::Natural => 0,
        Reading::Signed => -(1 << (bits - 1)),
        Reading::High => 24,
    }
}

/// Whether a number is one of 0 to 2 ^ bits - 1.
fn is_one_of(n: i64, bits: u32) -> bool
    requires { bits ≤ 25 }
    ensures { result ≡ is_below (2 ^ bits) n }
{
    0 <= n && n < 1 << bits
}

/// Whether a number is one of those that the bits of a field stand for.
// That a field can be placed in a word is what `Operation::fields` makes; two functions ask it.
fn operand_fits(field: OperandField, n: i32) -> bool
    requires { Placeable field }
    ensures { result ≡ field_fits field n }
{
    let bits = field.low.width + field.high.width;
    is_one_of(i64::from(n) - least(field.reading, bits), bits)
}

/// The `width` lowest bits of a number, from bit `place` of a word up.
fn put(n: u32, width: u32, place: u32) -> u32
    requires { (place < 32) × (width < 32) × (place + width ≤ 32) }
    ensures { result ≡ n % 2 ^ width * 2 ^ place }
{
    n % (1 << width) << place
}

/// The bits of a number in a field.
fn operand_bits(field: OperandField, n: i32) -> u32
    requires { Placeable field }
    ensures { result ≡ put_into field (word_of 32 n) }
{
    let word = n.cast_unsigned();
    let high = put(word >> field.low.width, field.high.width, field.high.place);
    high + put(word, field.low.width, field.low.place)
}

/// The bits of an operation.
fn operation_bits(operation: u32, width: Width) -> u32
    ensures { result ≡ placed_in (operation_field width) operation }
{
    match width {
        Width::Narrow => put(operation, 6, 10),
        Width::Wide => put(operation, 6, 26),
    }
}

impl Guard {
    /// Whether its numbers fit the three bits that each has.
    fn fits(self) -> bool
        ensures { result ≡ guard_fits (Some self) }
    {
        self.creg < 8 && self.condition < 8
    }

    /// Its bits in 32-bit words.
    fn bits(self) -> u32
        ensures { result ≡ guard_bits (Some self) }
    {
        0x0200_0000 + put(self.creg, 3, 22) + put(self.condition, 3, 19)
    }
}

/// An operation in words of a width, and where its operands stand there: looked up once for a word.
#[derive(Drop)]
struct Layout {
    operation: Operation,
    width: Width,
    fields: [OperandField; 4],
    ghost placed: { fields ≡ fields_at width operation },
}

impl Layout {
    /// That of an operation in words of a width.
    fn of(operation: Operation, width: Width) -> Self
        ensures operation { result.operation ≡ operation }
        ensures width { result.width ≡ width }
    {
        Layout {
            operation,
            width,
            fields: operation.fields(width),
        }
    }
}

impl Choice {
    /// Whether its operands fit the fields that its operation has for them.
    // The four are written out, here and below: of a loop over `zip` the check did not find the proof.
    #[tactic(auto, using(isa::proofs::Places::placeable_at))]
    fn operands_fit(self, layout: &Layout) -> bool
        ensures { result ≡ fields_fit layout.now.width layout.now.operation (chosen self) }
    {
        let fields = &layout.fields;
        operand_fits(fields[0], self.operands[0])
            && operand_fits(fields[1], self.operands[1])
            && operand_fits(fields[2], self.operands[2])
            && operand_fits(fields[3], self.operands[3])
    }

    /// Whether its operation has this form in words of a width, with a condition where one is given.
    fn has_form(self, width: Width) -> bool
        ensures { result ≡ chosen_form width self.operation (given self.condition) }
    {
        Operation::try_from(self.operation).is_ok_and(|operation| {
            let conditional = match width {
                Width::Narrow => false,
                Width::Wide => operation.is_conditional(),
            };
            operation.has_form(width) && (self.condition.is_none() || conditional)
        })
    }

    /// The bits of its operands in those fields.
    #[tactic(auto, using(isa::proofs::Places::placeable_at))]
    fn operands_bits(self, layout: &Layout) -> u64
        ensures { result ≡ fields_bits layout.now.width layout.now.operation (chosen self) }
    {
        let fields = &layout.fields;
        u64::from(operand_bits(fields[0], self.operands[0]))
            + u64::from(operand_bits(fields[1], self.operands[1]))
            + u64::from(operand_bits(fields[2], self.operands[2]))
            + u64::from(operand_bits(fields[3], self.operands[3]))
    }

    /// Whether its condition fits, where one is given.
    fn condition_fits(self) -> bool
        ensures { result ≡ guard_fits self.condition }
    {
        self.condition.is_none_or(Guard::fits)
    }

    /// The bits of its condition; without one there are none.
    fn condition_bits(self) -> u32
        ensures { result ≡ guard_bits self.condition }
    {
        self.condition.map_or(0, Guard::bits)
    }

    /// Whether its numbers fit all their bits.
    fn fits(self, layout: &Layout) -> bool
        requires { (chosen_form layout.now.width self.operation (given self.condition) ≡ true) × (layout.now.operation ≡ operation_of self.operation) }
        ensures { result ≡ all_fit (parts_of layout.now.width (chosen self)) }
    {
        self.condition_fits() && self.operands_fit(layout)
    }

    /// The sum of all bits: no two parts of a word share one.
    fn word(self, layout: &Layout) -> u32
        requires { (chosen_form layout.now.width self.operation (given self.condition) ≡ true) × (layout.now.operation ≡ operation_of self.operation) }
        ensures { result ≡ written (parts_of layout.now.width (chosen self)) }
    {
        let operation_bits = u64::from(operation_bits(self.operation, layout.width));
        let condition_bits = u64::from(self.condition_bits());
        (operation_bits + condition_bits + self.operands_bits(layout)) as u32
    }
}

/// The word of a choice; or the refusal: there is no such form in the width, which is asked first, or a number does not fit its bits (Manual 12).
pub fn encode(width: Width, choice: Choice) -> Result<u32, Refusal>
    ensures { encoding_of result ≡ encode_of width (chosen choice) }
{
    if !choice.has_form(width) {
        return Err(Refusal::FormUnknown);
    }
    let layout = Layout::of(Operation::from_number(choice.operation), width);
    if !choice.fits(&layout) {
        return Err(Refusal::OperandUnfit);
    }
    Ok(choice.word(&layout))
}
