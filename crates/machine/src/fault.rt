//! Why an instruction does nothing of its own: an exception in its place, or the end of the run.
#![tactic(auto)]

ghost use Rattle.std.specs.Prelude.{◌≡◌};
ghost use Rattle.machine.specs.Fault.{number_of_stop, code_of_exception};

use std::error::Error;
use std::fmt;

/// Why a run ends before its limit (Manual 4.10).
#[derive(Clone, Copy, Debug, PartialEq, Eq)]
pub enum Stop {
    /// A byte of the instruction word, or of a nop that must follow it, is outside the program.
    ByteAbsent,
    /// A data address is neither in the control block nor a cell.
    NoData,
    /// A control transfer stands in a branch slot.
    TransferInSlot,
    /// There is no product from the step just before.
    NoProduct,
    /// The interrupt stack is empty.
    EmptyStack,
    /// Another operation stands where a nop must.
    NopMissing,
}

impl Stop {
    /// The number by which an answer names it.
    pub fn number(self) -> u32
        ensures { result ≡ number_of_stop self }
    {
        match self {
            Stop::ByteAbsent => 11,
            Stop::NoData => 12,
            Stop::TransferInSlot => 13,
            Stop::NoProduct => 14,
            Stop::EmptyStack => 15,
            Stop::NopMissing => 20,
        }
    }
}

impl fmt::Display for Stop {
    ghost use Rattle.std.specs.Prelude.{Some};
    ghost use Rattle.machine.specs.Fault.{text_of};

    ghost output = { λ s. Some (text_of s) };

    fn fmt<W: fmt::Write>(&self, f: &mut fmt::Formatter<W>) -> fmt::Result {
        f.write_str(match self {
            Stop::ByteAbsent => "a program byte is absent",
            Stop::NoData => "no data at the address",
            Stop::TransferInSlot => "a control transfer in a branch slot",
            Stop::NoProduct => "no product is held",
            Stop::EmptyStack => "the interrupt stack is empty",
            Stop::NopMissing => "a nop is missing",
        })
    }
}

impl Error for Stop {}

/// What an instruction raises in place of its effect (Manual 4.9).
#[derive(Clone, Copy, Debug, PartialEq, Eq)]
pub enum Exception {
    ProgramProtected,
    Unavailable,
    MisalignedTarget,
    TargetOutside,
    MisalignedProgram,
    Overflow,
    DataProtected,
    AddressOutside,
    TargetProtected,
    /// With the low five bits of a number.
    Trap(u32),
}

impl Exception {
    /// The code that EXCEPTION_CS shows.
    pub fn code(self) -> u32
        ensures { result ≡ code_of_exception self }
    {
        match self {
            Exception::ProgramProtected => 0x00,
            Exception::Unavailable => 0x02,
            Exception::MisalignedTarget => 0x03,
            Exception::TargetOutside => 0x04,
            Exception::MisalignedProgram => 0x05,
            Exception::Overflow => 0x06,
            Exception::DataProtected => 0x07,
            Exception::AddressOutside => 0x08,
            Exception::TargetProtected => 0x09,
            Exception::Trap(n) => 0xE0 + n % 32,
        }
    }
}

/// Why an instruction does nothing of its own.
#[derive(Clone, Copy, Debug, PartialEq, Eq)]
pub enum Fault {
    Exception(Exception),
    Stop(Stop),
}

impl From<Exception> for Fault {
    ghost use Rattle.machine.specs.declared.fault.Fault.TheVariants as fault;

    ghost from_gives = { λ e f. f ≡ fault.Exception e };

    fn from(exception: Exception) -> Self {
        Fault::Exception(exception)
    }
}

impl From<Stop> for Fault {
    ghost use Rattle.machine.specs.declared.fault.Fault.TheVariants as fault;

    ghost from_gives = { λ s f. f ≡ fault.Stop s };

    fn from(stop: Stop) -> Self {
        Fault::Stop(stop)
    }
}
