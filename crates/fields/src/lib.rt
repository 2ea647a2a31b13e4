// The fields of a case, which a mark separates, and what they stand for: a text, a number, several numbers. Of texts
// and of several numbers no clause says more than its callers need; the expected answers of the cases say the rest.
#![tactic(auto)]

ghost use Rattle.std.specs.Prelude.{◌≡◌, ◌≤◌, ◌<◌, length, take, IfSome};
ghost use Rattle.fields.specs.Fields.{trimmed, mark_place, first_field, behind_mark};
ghost use Rattle.fields.specs.Fields.{hex_value, with_digit, number_of, window_number_of};

use answers::Text;

// A piece of a text: bytes that are all the same, or numbered lines.
#[derive(Clone, Copy)]
enum Piece {
    Bytes { byte: u8, count: usize },
    Lines { count: usize },
}

// A field without the blanks at both ends.
fn without_blanks(field: &[u8]) -> &[u8]
    ensures { result.now ≡ trimmed field.now }
{
    let behind = field
        .iter()
        .rev()
        .take_while(|b| lines::is_blank(**b))
        .count();
    let front = &field[..field.len() - behind];
    let before = front.iter().take_while(|b| lines::is_blank(**b)).count();
    &front[before..]
}

// Where the first mark stands.
fn mark_place(line: &[u8], mark: u8) -> Option<usize>
    ensures { result ≡ mark_place mark line.now }
{
    line.iter().position(|b| *b == mark)
}

// The first field, without the blanks at both ends, and what stands behind its mark.
pub fn split(line: &[u8], mark: u8) -> (&[u8], &[u8])
    ensures field { result.0.now ≡ first_field mark line.now }
    ensures behind { result.1.now ≡ behind_mark mark line.now }
{
    match mark_place(line, mark) {
        Some(end) => (without_blanks(&line[..end]), &line[end + 1..]),
        None => (without_blanks(line), &[]),
    }
}

// The value of a digit in hex; some value below 16 of any other byte.
fn hex_value(digit: u8) -> u8
    ensures value { result ≡ hex_value digit }
    ensures small { result < 16 }
{
    if digit < b'A' {
        digit % 16
    } else {
        (digit % 16 + 9) % 16
    }
}

// A number in hex with one digit more, unless it has eight digits.
fn with_digit(n: u32, digit: u8) -> u32
    ensures { result ≡ with_digit n digit }
{
    if 0x1000_0000 <= n {
        return n;
    }
    n * 16 + u32::from(hex_value(digit))
}

// A number in hex; digits beyond those that fit do not count.
pub fn number(digits: &[u8]) -> u32
    ensures { result ≡ number_of digits.now }
{
    digits.iter().fold(0, |n, digit| with_digit(n, *digit))
}

// The byte that a field begins with, itself or `%` and two digits, fewer where the field ends, and what stands behind
// it.
fn first_byte(field: &[u8]) -> Option<(u8, &[u8])>
    ensures { IfSome result (λ found. length found.1.now < length field.now) }
{
    // `as`, here and below: Rust has no `From` from `u32` to `u8` or `usize`; the remainder that is narrowed fits.
    match field {
        [] => None,
        [b'%', rest @ ..] => {
            let (digits, behind) = rest.split_at(rest.len().min(2));
            Some(((number(digits) % 256) as u8, behind))
        }
        [byte, rest @ ..] => Some((*byte, rest)),
    }
}

// The piece that a field begins with, and what stands behind it: `%*` and four digits repeat the byte after, 0 where
// there is none, `%#` and four digits ask for lines. Where the field ends there are fewer digits.
fn first_piece(field: &[u8]) -> Option<(Piece, &[u8])>
    ensures { IfSome result (λ found. length found.1.now < length field.now) }
{
    if let [b'%', b'#', rest @ ..] = field {
        let (digits, behind) = rest.split_at(rest.len().min(4));
        let count = number(digits) as usize;
        return Some((Piece::Lines { count }, behind));
    }
    if let [b'%', b'*', rest @ ..] = field {
        let (digits, rest) = rest.split_at(rest.len().min(4));
        let count = number(digits) as usize;
        let (byte, behind) = first_byte(rest).unwrap_or((0, &[]));
        return Some((Piece::Bytes { byte, count }, behind));
    }
    let (byte, behind) = first_byte(field)?;
    Some((Piece::Bytes { byte, count: 1 }, behind))
}

// Puts so many lines `char \uXXXX 1`, for the characters from U+4E00 on; the last one is cut where the room ends.
fn put_lines(out: &mut [u8], count: usize) -> usize
    ensures { result ≤ length out.new }
{
    let end = out.len().min(count.saturating_mul(14));
    for (i, line) in out[..end].chunks_mut(14).enumerate() {
        let text = Text::of(format_args!("char \\u{:04X} 1\n", 0x4E00 + i));
        for (byte, b) in line.iter_mut().zip(text.as_bytes()) {
            *byte = *b;
        }
    }
    end
}

// Puts the bytes of a piece, as far as there is room; answers how many.
fn put_piece(out: &mut [u8], piece: Piece) -> usize
    ensures { result ≤ length out.new }
{
    match piece {
        Piece::Lines { count } => put_lines(out, count),
        Piece::Bytes { byte, count } => {
            let end = out.len().min(count);
            out[..end].fill(byte);
            end
        }
    }
}

// Puts the text that a field stands for; answers its length.
pub fn decode(field: &[u8], out: &mut [u8]) -> usize
    ensures { result ≤ length out.new }
{
    let mut rest = field;
    let mut n = 0;
    // A cursor: how far a piece goes shows only when it is read, so no `for` goes over the pieces.
    while let Some((piece, behind)) = first_piece(rest) {
        n += put_piece(&mut out[n..], piece);
        rest = behind;
    }
    n
}

// Puts the numbers of a field, as far as there is room. Its words are numbers for the next place, or `@` and the number
// of the next place, of which eight digits count; answers the place behind the last.
pub fn put_numbers(out: &mut [u32], field: &[u8]) -> usize {
    let mut place = 0;
    for word in field.split(|b| lines::is_blank(*b)) {
        match word {
            [] => {}
            [b'@', digits @ ..] => place = number(&digits[..digits.len().min(8)]) as usize,
            digits => {
                if place < out.len() {
                    out[place] = number(digits);
                    place += 1;
                }
            }
        }
    }
    place
}

// The numbers of a field, the first `count` of them.
#[derive(Clone, Copy)]
pub struct Numbers<const N: usize> {
    pub all: [u32; N],
    pub count: usize,
    ghost within: { count ≤ N },
}

impl<const N: usize> Numbers<N> {
    // None where the last `@` of a field leads beyond `N`; numbers that find no room are left out.
    pub fn read(field: &[u8]) -> Option<Numbers<N>> {
        let mut all = [0; N];
        let count = put_numbers(&mut all, field);
        if N < count {
            return None;
        }
        Some(Numbers { all, count })
    }

    pub fn as_slice(&self) -> &[u32]
        ensures { result.now ≡ take self.now.count self.now.all }
    {
        &self.all[..self.count]
    }
}

// A start or a width: a number from 2^31 on stands for the one that is as far below 2^64 as it is below 2^32.
pub fn window_number(n: u32) -> usize
    ensures { result ≡ window_number_of n }
{
    match n {
        0..0x8000_0000 => n as usize,
        _ => 0xFFFF_FFFF_0000_0000 + n as usize,
    }
}
