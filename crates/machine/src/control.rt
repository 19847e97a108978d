//! The control block (Manual 5): the offsets of its registers, and what a store leaves in them.
#![tactic(auto)]

ghost use Rattle.std.specs.Prelude.{◌≡◌};
ghost use Rattle.machine.specs.Control.{register_at, largest, kept_by, is_writable, replaces_top, within, can_hold};
ghost use Rattle.machine.specs.Stack.{kept_status, return_stored};

use crate::stack::Entry;
use crate::status::Status;

/// How many registers the control block has (Manual 5.1).
pub const OFFSETS: usize = 45;

/// The offsets of control registers (Manual 5.1); the vectors of the 12 sources follow each other.
pub const CCB_BASE: usize = 0x00;

pub const INT_VECTORS: usize = 0x04;

pub const INT_MODE_IL: usize = 0x10;

pub const INT_MODE_UM: usize = 0x11;

pub const INT_MASK: usize = 0x12;

pub const INT_SERV: usize = 0x13;

pub const INT_PEND: usize = 0x14;

pub const EXT_INT_PRI: usize = 0x15;

pub const COP_INT_PRI: usize = 0x16;

pub const EXCEPTION_CS: usize = 0x17;

pub const EXCEPTION_PC: usize = 0x18;

pub const EXCEPTION_PSR: usize = 0x19;

pub const DMEM_BOUND_LO: usize = 0x1A;

pub const DMEM_BOUND_HI: usize = 0x1B;

pub const IMEM_BOUND_LO: usize = 0x1C;

pub const IMEM_BOUND_HI: usize = 0x1D;

pub const SYSTEM_ADDR: usize = 0x1F;

pub const EXCEP_ADDR: usize = 0x20;

pub const TMR0_CNT: usize = 0x23;

pub const TMR0_MAX_CNT: usize = 0x24;

pub const TMR1_CNT: usize = 0x25;

pub const TMR1_MAX_CNT: usize = 0x26;

pub const TMR_CONF: usize = 0x27;

pub const RETI_ADDR: usize = 0x28;

pub const RETI_PSR: usize = 0x29;

pub const RETI_CR0: usize = 0x2A;

/// The largest number of the bits of the control register at an offset (Manual 5.1).
#[tactic(auto, unfolding(crate::specs::Control::registers, crate::specs::Control::register_at, crate::specs::Control::largest))]
pub fn limit(offset: usize) -> u32
    ensures { result ≡ largest (register_at offset) }
{
    match offset {
        0x10 => 0xFFF,
        0x11 => 0xFFF,
        0x12 => 0xFFF,
        0x13 => 0xFFF,
        0x14 => 0xFFF,
        0x16 => 0xFFFF,
        0x17 => 0xFF,
        0x19 => 0xFF,
        0x1E => 3,
        0x21 => 0xFFF,
        0x22 => 0x0FFF_FFFF,
        0x29 => 0xFF,
        0x2A => 7,
        _ => 0xFFFF_FFFF,
    }
}

/// Whether the control register at an offset keeps what is stored (Manual 5.1).
#[tactic(auto, using(crate::proofs::Widths::writable_below), unfolding(crate::specs::Control::registers, crate::specs::Control::register_at, crate::specs::Control::is_writable))]
pub(crate) fn is_writable(offset: usize) -> bool
    ensures { result ≡ is_writable (register_at offset).access }
{
    match offset {
        0x13 => false,
        0x14 => false,
        0x17 => false,
        0x18 => false,
        0x19 => false,
        _ => offset < 0x28,
    }
}

/// What a store of x leaves in a writable control register.
#[tactic(auto, using(crate::proofs::Widths::mask_base, crate::proofs::Widths::mask_whole, crate::proofs::Widths::no_zeros))]
pub(crate) fn kept(offset: usize, x: u32) -> u32
    ensures { result ≡ kept_by (register_at offset) x }
{
    let bits = x & limit(offset);
    if offset == 0 { bits / 256 * 256 } else { bits }
}

/// Whether bounds protect an address: low ≤ address ≤ high (Manual 1.3).
#[tactic(auto, unfolding(crate::specs::Control::within))]
pub fn is_within(low: u32, high: u32, address: u32) -> bool
    ensures { result ≡ within low high address }
{
    low <= address && address <= high
}

/// Whether the control register at an offset shows a part of the stack's top (Manual 5.3).
#[tactic(auto, using(crate::proofs::Widths::top_registers), unfolding(word::specs::Flags::is_among))]
pub(crate) fn replaces_top(offset: usize) -> bool
    ensures { result ≡ replaces_top (register_at offset).access }
{
    matches!(offset, RETI_ADDR | RETI_PSR | RETI_CR0)
}

/// What RETI_PSR keeps of x: bits 4..0, with both set bits 0 where UM is 1 (Manual 5.3).
#[tactic(auto, using(crate::proofs::Statuses::wide_named), unfolding(crate::specs::Stack::kept_status, crate::specs::Machine::states, word::specs::Choice::choices))]
fn kept_status(x: u32) -> u32
    ensures { result ≡ kept_status x }
{
    let status = Status::from(x);
    if status.user {
        u32::from(Status::user(status.width, status.enabled))
    } else {
        x % 32
    }
}

/// An entry with the part replaced that the register at an offset shows.
#[tactic(auto, unfolding(crate::specs::Stack::return_stored, word::specs::Choice::choices))]
pub(crate) fn return_stored(entry: Entry, offset: usize, x: u32) -> Entry
    ensures { result ≡ return_stored offset x entry }
{
    let mut stored = entry;
    match offset {
        0x28 => {
            stored.address = x;
        }
        0x29 => {
            stored.psr = kept_status(x);
        }
        0x2A => {
            stored.c0 = x % 8;
        }
        _ => {}
    }
    stored
}

/// The control registers at reset (Manual 5.1), by offset.
pub(crate) const RESET: [u32; OFFSETS] = [
    0x0001_0000, // CCB_BASE
    0x0001_0100, // PCB_BASE
    0x0001_01FF, // PCB_END
    0x0000_00FF, // PCB_AMASK
    1, // COP0_INT_VEC
    1, // COP1_INT_VEC
    1, // COP2_INT_VEC
    1, // COP3_INT_VEC
    1, // EXT_INT0_VEC
    1, // EXT_INT1_VEC
    1, // EXT_INT2_VEC
    1, // EXT_INT3_VEC
    1, // EXT_INT4_VEC
    1, // EXT_INT5_VEC
    1, // EXT_INT6_VEC
    1, // EXT_INT7_VEC
    0xFFF, // INT_MODE_IL
    0xFFF, // INT_MODE_UM
    0, // INT_MASK
    0, // INT_SERV
    0, // INT_PEND
    0, // EXT_INT_PRI
    0, // COP_INT_PRI
    0, // EXCEPTION_CS
    0, // EXCEPTION_PC
    0, // EXCEPTION_PSR
    0, // DMEM_BOUND_LO
    0xFFFF_FFFF, // DMEM_BOUND_HI
    0, // IMEM_BOUND_LO
    0xFFFF_FFFF, // IMEM_BOUND_HI
    3, // MEM_CONF
    0, // SYSTEM_ADDR
    0, // EXCEP_ADDR
    0xFFF, // BUS_CONF
    0, // COP_CONF
    0, // TMR0_CNT
    0, // TMR0_MAX_CNT
    0, // TMR1_CNT
    0, // TMR1_MAX_CNT
    0, // TMR_CONF
    1, // RETI_ADDR
    9, // RETI_PSR
    0, // RETI_CR0
    0, // FPU_STATUS
    1, // CORE_VER_ID
];
