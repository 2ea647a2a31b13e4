// Numbers and cells as text, and texts put into a lent buffer, each at a place; the answer is the place behind it.
#![tactic(auto)]

ghost use Rattle.std.specs.Prelude.{◌≡◌, [], ◌∷◌, ◌+◌, ◌≤◌, ◌%◌, length, take};
ghost use Rattle.writing.specs.Writing.{hex_digit, hex_digits, raised_from, dots_text, Put};

// A text of eight digits at most, the first `count` of the bytes.
#[derive(Clone, Copy)]
pub struct Digits {
    pub bytes: [u8; 8],
    pub count: usize,
    pub ghost within: { count ≤ 8 },
}

impl Digits {
    // The digits as bytes.
    pub fn as_slice(&self) -> &[u8]
        ensures { result.now ≡ take self.now.count self.now.bytes }
    {
        &self.bytes[..self.count]
    }
}

// Puts one byte.
pub fn put_byte(buffer: &mut [u8], at: usize, b: u8) -> usize
    requires { at + 1 ≤ length buffer.old }
    ensures { Put buffer.old at (b ∷ []) result buffer.new }
{
    buffer[at] = b;
    at + 1
}

// Puts a text.
#[tactic(auto, using(crate::proofs::Puts::copied))]
pub fn put_bytes(buffer: &mut [u8], at: usize, text: &[u8]) -> usize
    requires { at + length text.now ≤ length buffer.old }
    ensures { Put buffer.old at text.now result buffer.new }
{
    let end = at + text.len();
    buffer[at..end].copy_from_slice(text);
    end
}

// The last hex digit of a number, in lower case.
#[tactic(auto, using(basics::proofs::Tests::tests), unfolding(crate::specs::Writing::hex_digit))]
fn hex_digit(n: u32) -> u8
    ensures { result ≡ hex_digit (n % 16) }
{
    // `as`, here and below: Rust has no `From` from `u32` to `u8` or `usize`; the remainder that is narrowed fits.
    match (n % 16) as u8 {
        d @ 0..=9 => b'0' + d,
        d => b'a' - 10 + d,
    }
}

// The eight hex digits of a number, each from its four bits.
#[tactic(auto, using(crate::proofs::Numerals::digits_all))]
pub fn hex_digits(n: u32) -> [u8; 8]
    ensures { result ≡ hex_digits 8 n }
{
    let mut digits = [0u8; 8];
    for (i, digit) in digits.iter_mut().enumerate() {
        *digit = hex_digit(n >> (28 - 4 * i));
    }
    digits
}

// The digits of the raised dots. Each digit is written, and the next one takes its place where its dot is not raised.
fn raised_digits(cell: u8) -> Digits
    ensures { take result.count result.bytes ≡ raised_from 8 49 cell }
{
    let mut bytes = [0u8; 8];
    let mut count = 0;
    let mut left = cell;
    for digit in b'1'..=b'8' {
        bytes[count] = digit;
        count += usize::from(left % 2);
        left /= 2;
    }
    Digits { bytes, count }
}

// The dots of a cell, rising; `0` where none is raised.
#[tactic(auto, using(basics::proofs::Tests::tests), unfolding(crate::specs::Writing::dots_text))]
pub fn dots_digits(cell: u8) -> Digits
    ensures { take result.count result.bytes ≡ dots_text cell }
{
    if cell == 0 {
        return Digits {
            bytes: [b'0'; 8],
            count: 1,
        };
    }
    raised_digits(cell)
}

// How many digits the dots of a cell take.
#[tactic(auto, using(crate::proofs::Numerals::counted_dots))]
pub fn dots_length(cell: u8) -> usize
    ensures { (result ≡ length (dots_text cell)) × (result ≤ 8) }
{
    if cell == 0 {
        return 1;
    }
    cell.count_ones() as usize
}
