// A word as a character or byte operand: what it spells, and the character or byte that it stands for. A local
// character set is a number, as in `scalars`: callers name any.
#![tactic(auto)]

ghost use Rattle.std.specs.Prelude.{◌≡◌, ◌+◌, ◌*◌, ◌%◌, ◌<◌, IfSome, unwrap_or, option_map};
ghost use Rattle.characters.specs.Internal.{radix};
ghost use Rattle.characters.specs.Characters.{no_number, digit_of, with_digit, digits_from, plain_of, short_of};
ghost use Rattle.characters.specs.Characters.{radix_of, word_number, character_of, operand_of, is_unicode_escape};
ghost use Rattle.characters.specs.Characters.{is_escape, byte_of, byte_character_of, word_value};

// What an operand is read as: a character, or a byte of the local set.
#[derive(Clone, Copy)]
pub enum OperandKind {
    Character,
    Byte,
}

// The base of an escape's digits, with its radix.
#[derive(Clone, Copy)]
enum Base {
    Octal = 8,
    Hexadecimal = 16,
}

// The last number of a character. In the definitions one more stands for no number.
const LAST_NUMBER: u32 = 0x10FFFF;

// `n` with the digit that `b` is behind it.
fn with_digit(base: Base, n: u32, b: u8) -> Option<u32>
    requires { n < no_number }
    ensures value { unwrap_or result no_number ≡ with_digit (radix base) n (digit_of b) }
    ensures number { IfSome result (λ m. m < no_number) }
{
    let radix = base as u32;
    let digit = char::from(b).to_digit(radix)?;
    let more = n * radix + digit;
    (more <= LAST_NUMBER).then_some(more)
}

// The number that digits are.
fn digits_of(base: Base, digits: &[u8]) -> Option<u32>
    ensures { unwrap_or result no_number ≡ digits_from (radix base) digits.now 0 }
{
    let mut n = 0;
    for b in digits {
        n = with_digit(base, n, *b)?;
    }
    Some(n)
}

// A number with the six bits behind it that a further byte of UTF-8 has.
fn with_bits(n: u32, b: u8) -> u32
    requires { n < 0x4000000 }
    ensures { result ≡ n * 64 + b % 64 }
{
    n * 64 + u32::from(b % 64)
}

// The character of a word that is one character, in a line that is UTF-8.
#[tactic(auto, unfolding(crate::specs::Characters::plain_of))]
fn plain_of(w: &[u8]) -> Option<u32>
    ensures { unwrap_or result no_number ≡ plain_of w.now }
{
    match *w {
        [a] => Some(u32::from(a)),
        [a @ 0xC0.., b] => Some(with_bits(u32::from(a % 32), b)),
        [a @ 0xE0.., b, c] => Some(with_bits(with_bits(u32::from(a % 16), b), c)),
        [a @ 0xF0.., b, c, d] => Some(with_bits(with_bits(with_bits(u32::from(a % 8), b), c), d)),
        _ => None,
    }
}

// The character of an escape of one letter or sign.
#[tactic(auto, unfolding(crate::specs::Characters::short_of))]
fn short_of(b: u8) -> Option<u32>
    ensures { unwrap_or result no_number ≡ short_of b }
{
    match b {
        b'b' => Some(8),
        b't' => Some(9),
        b'n' => Some(10),
        b'v' => Some(11),
        b'f' => Some(12),
        b'r' => Some(13),
        b's' => Some(32),
        b'#' | b'\\' => Some(u32::from(b)),
        _ => None,
    }
}

// The base of an escape with the letter `b` in a word of `n` bytes.
#[tactic(auto, unfolding(crate::specs::Characters::radix_of))]
fn radix_of(b: u8, n: usize) -> Option<Base>
    ensures { unwrap_or (option_map radix result) 0 ≡ radix_of b n }
{
    match (b, n) {
        (b'o', 5) => Some(Base::Octal),
        (b'x' | b'X', 4) | (b'u', 6) | (b'U', 10) => Some(Base::Hexadecimal),
        _ => None,
    }
}

// The number of a whole word.
#[tactic(auto, unfolding(crate::specs::Characters::word_number))]
fn word_number(w: &[u8]) -> Option<u32>
    ensures { unwrap_or result no_number ≡ word_number w.now }
{
    match w {
        [b'\\'] => None,
        [b'\\', letter] => short_of(*letter),
        [b'\\', letter, digits @ ..] => digits_of(radix_of(*letter, w.len())?, digits),
        _ => plain_of(w),
    }
}

// The character of a whole word.
#[tactic(auto, unfolding(crate::specs::Characters::character_of))]
pub fn character_of(w: &[u8]) -> Option<u32>
    ensures { result ≡ character_of w.now }
{
    word_number(w).filter(|n| scalars::is_scalar(*n))
}

// The character that a character operand stands for.
#[tactic(auto, unfolding(crate::specs::Characters::operand_of))]
fn operand_of(charset: u32, w: &[u8]) -> Option<u32>
    ensures { result ≡ operand_of charset w.now }
{
    let c = character_of(w)?;
    Some(scalars::local_of(charset, c))
}

// Whether a word is an escape by `\u` or `\U`.
fn is_unicode_escape(w: &[u8]) -> bool
    ensures { result ≡ is_unicode_escape w.now }
{
    matches!(w, [b'\\', b'u' | b'U', ..])
}

// Whether a word is an escape.
fn is_escape(w: &[u8]) -> bool
    ensures { result ≡ is_escape w.now }
{
    matches!(w, [b'\\', ..])
}

// The byte of a whole word in a local character set, whatever escape it is.
#[tactic(auto, unfolding(crate::specs::Characters::byte_of))]
pub fn byte_of(charset: u32, w: &[u8]) -> Option<u8>
    ensures { result ≡ byte_of charset w.now }
{
    let n = character_of(w)?;
    if is_escape(w) {
        scalars::as_byte(n)
    } else {
        scalars::local_byte(charset, n)
    }
}

// The character that a byte operand stands for.
#[tactic(auto, unfolding(crate::specs::Characters::byte_character_of))]
fn byte_character_of(charset: u32, w: &[u8]) -> Option<u32>
    ensures { result ≡ byte_character_of charset w.now }
{
    if is_unicode_escape(w) {
        return None;
    }
    let byte = byte_of(charset, w)?;
    Some(scalars::local_character(charset, byte))
}

// The character of a whole word that is an operand of that kind.
pub fn word_value(charset: u32, w: &[u8], kind: OperandKind) -> Option<u32>
    ensures { result ≡ word_value kind charset w.now }
{
    match kind {
        OperandKind::Character => operand_of(charset, w),
        OperandKind::Byte => byte_character_of(charset, w),
    }
}
