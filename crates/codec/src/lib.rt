//! 32-bit numbers in byte slices, high byte first: one at a place, and many one after another.
#![tactic(auto)]

ghost use Rattle.std.specs.Prelude.{◌≡◌, ◌+◌, ◌*◌, ◌/◌, ◌≤◌, length};
ghost use Rattle.codec.specs.Number.{number_at, bytes_of_number, numbers_of, bytes_of, put_at, over};

/// The number in the four bytes from a place on.
// A slice and a place: four bytes would have to be cut out at each call.
pub fn number_at(bytes: &[u8], at: usize) -> u32
    requires { at + 4 ≤ length bytes.now }
    ensures { result ≡ number_at bytes.now at }
{
    u32::from_be_bytes([bytes[at], bytes[at + 1], bytes[at + 2], bytes[at + 3]])
}

/// Writes a number to the four bytes from a place on.
pub fn put_number(bytes: &mut [u8], at: usize, n: u32)
    requires { at + 4 ≤ length bytes.old }
    ensures { bytes.new ≡ put_at bytes.old at (bytes_of_number n) }
{
    bytes[at..at + 4].copy_from_slice(&n.to_be_bytes());
}

/// Reads the numbers of a slice of bytes to the front of a slice of numbers. One to three bytes at the end that make no number are left out.
pub fn read_numbers(bytes: &[u8], numbers: &mut [u32])
    requires { length bytes.now / 4 ≤ length numbers.old }
    ensures { numbers.new ≡ over (numbers_of bytes.now) numbers.old }
{
    let count = bytes.len() / 4;
    for (i, number) in numbers[..count].iter_mut().enumerate() {
        *number = number_at(bytes, 4 * i);
    }
}

/// Writes numbers to the front of a slice of bytes.
#[tactic(auto, using(crate::proofs::Laws::write_more), unfolding(crate::specs::Number::bytes_of))]
pub fn write_numbers(numbers: &[u32], bytes: &mut [u8])
    requires { 4 * length numbers.now ≤ length bytes.old }
    ensures { bytes.new ≡ over (bytes_of numbers.now) bytes.old }
{
    for (i, &number) in numbers.iter().enumerate() {
        put_number(bytes, 4 * i, number);
    }
}
