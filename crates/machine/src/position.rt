//! The position: six numbers, of which two are flags.
#![tactic(auto, unfolding(crate::specs::Machine::states, crate::specs::Position::positions, crate::specs::Words::position_of))]

ghost use Rattle.std.specs.Prelude.{◌≡◌, [], ◌∷◌};
ghost use Rattle.machine.specs.Machine.{position_at};
ghost use Rattle.machine.specs.Position.{before_slot, holding, slot_of, product_of};

use word::Product;

/// How many numbers the position has (Manual 8.1).
pub const PLACES: usize = 6;

/// Where the program is (Manual 1.5).
#[derive(Clone, Copy, Debug, PartialEq, Eq)]
pub struct Position {
    pub(crate) pc: u32,
    // 1 while a branch slot waits.
    pub(crate) slot: u32,
    // Where control goes after the slot.
    pub(crate) target: u32,
    // 1 while a product is held for mulhi.
    pub(crate) held: u32,
    pub(crate) high: u32,
    pub(crate) low: u32,
}

impl Position {
    /// At an address, with no slot and no product.
    pub fn at(pc: u32) -> Self
        ensures { result ≡ position_at pc }
    {
        Position {
            pc,
            slot: 0,
            target: 0,
            held: 0,
            high: 0,
            low: 0,
        }
    }

    /// At the slot of a jump to a target.
    pub fn before_slot(pc: u32, target: u32) -> Self
        ensures { result ≡ before_slot pc target }
    {
        Position {
            slot: 1,
            target,
            ..Position::at(pc)
        }
    }

    /// At an address, with a product held for the instruction there.
    pub fn holding(pc: u32, product: Product) -> Self
        ensures { result ≡ holding pc product.high product.low }
    {
        Position {
            held: 1,
            high: product.high,
            low: product.low,
            ..Position::at(pc)
        }
    }

    /// The program counter.
    pub fn pc(self) -> u32
        ensures { result ≡ self.pc }
    {
        self.pc
    }

    /// Where control goes after the slot, if one waits.
    pub fn slot(self) -> Option<u32>
        ensures { result ≡ slot_of self }
    {
        if self.slot == 1 {
            Some(self.target)
        } else {
            None
        }
    }

    /// The product that is held, if one is.
    pub fn product(self) -> Option<Product>
        ensures { result ≡ product_of self }
    {
        if self.held == 1 {
            Some(Product {
                high: self.high,
                low: self.low,
            })
        } else {
            None
        }
    }

    /// The six numbers, in the order of an image (Manual 8.1).
    pub fn numbers(self) -> [u32; PLACES]
        ensures { result ≡ self.pc ∷ self.slot ∷ self.target ∷ self.held ∷ self.high ∷ self.low ∷ [] }
    {
        [
            self.pc,
            self.slot,
            self.target,
            self.held,
            self.high,
            self.low,
        ]
    }
}

impl From<[u32; PLACES]> for Position {
    ghost use Rattle.machine.specs.Words.{position_of};

    ghost from_gives = { λ numbers position. position ≡ position_of numbers };

    /// The position that six numbers say, in the order of an image.
    fn from(numbers: [u32; PLACES]) -> Self {
        Position {
            pc: numbers[0],
            slot: numbers[1],
            target: numbers[2],
            held: numbers[3],
            high: numbers[4],
            low: numbers[5],
        }
    }
}
