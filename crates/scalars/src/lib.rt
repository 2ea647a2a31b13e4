// Characters: scalar values, the two rows, the local character sets, base characters, ASCII stand-ins.
#![tactic(auto)]

ghost use Rattle.std.specs.Prelude.{◌≡◌};
ghost use Rattle.scalars.specs.Characters.{is_scalar, is_braille, is_private, is_operand, is_charset, as_byte};
ghost use Rattle.scalars.specs.Characters.{character_by, byte_by, local_character, local_byte, local_of};
ghost use Rattle.scalars.specs.Characters.{stands_for, base_of, stand_in_of};

// Whether `c` is a Unicode scalar value.
pub fn is_scalar(c: u32) -> bool
    ensures { result ≡ is_scalar c }
{
    matches!(c, 0..=0xD7FF | 0xE000..=0x10FFFF)
}

// Whether `c` is in the braille row, U+2800 to U+28FF.
pub fn is_braille(c: u32) -> bool
    ensures { result ≡ is_braille c }
{
    matches!(c, 0x2800..=0x28FF)
}

// Whether `c` is in the private row, U+F000 to U+F0FF.
pub fn is_private(c: u32) -> bool
    ensures { result ≡ is_private c }
{
    matches!(c, 0xF000..=0xF0FF)
}

// Whether `c` can be what an operand stands for: a scalar value, none of the private row.
pub fn is_operand(c: u32) -> bool
    ensures { result ≡ is_operand c }
{
    is_scalar(c) && !is_private(c)
}

// The local character sets by number and not as an enum: C and the words of a table name them so, and any number may be
// asked for.
pub const ISO_8859_1: u32 = 1;

pub const ISO_8859_15: u32 = 2;

// Whether there is a local character set of that number.
#[tactic(auto, unfolding(crate::specs::Characters::is_charset))]
pub fn is_charset(charset: u32) -> bool
    ensures { result ≡ is_charset charset }
{
    matches!(charset, ISO_8859_1 | ISO_8859_15)
}

// A number as a byte.
pub fn as_byte(n: u32) -> Option<u8>
    ensures { result ≡ as_byte n }
{
    u8::try_from(n).ok()
}

// Where ISO 8859-15 differs from ISO 8859-1, in which byte n is character n: a byte and its character.
const DIFFERENCES: [(u8, u32); 8] = [
    (0xA4, 0x20AC),
    (0xA6, 0x160),
    (0xA8, 0x161),
    (0xB4, 0x17D),
    (0xB8, 0x17E),
    (0xBC, 0x152),
    (0xBD, 0x153),
    (0xBE, 0x178),
];

// The character of a byte by rows of a byte and its character.
fn character_by(rows: &[(u8, u32)], byte: u8) -> u32
    ensures { result ≡ character_by rows.now byte }
{
    rows.iter()
        .find(|&&(of, _)| of == byte)
        .map_or(u32::from(byte), |&(_, character)| character)
}

// The byte of a character by such rows. A loop: two tests of a row end it, each with another answer.
fn byte_by(rows: &[(u8, u32)], c: u32) -> Option<u8>
    ensures { result ≡ byte_by rows.now c }
{
    for &(byte, character) in rows {
        if character == c {
            return Some(byte);
        }
        if u32::from(byte) == c {
            return None;
        }
    }
    as_byte(c)
}

// The character that a local character set has for a byte.
#[tactic(auto, unfolding(crate::specs::Characters::character_by))]
pub fn local_character(charset: u32, byte: u8) -> u32
    ensures { result ≡ local_character charset byte }
{
    if charset == ISO_8859_15 {
        character_by(&DIFFERENCES, byte)
    } else {
        u32::from(byte)
    }
}

// The byte, if any, that a local character set has for a character.
#[tactic(auto, unfolding(crate::specs::Characters::byte_by))]
pub fn local_byte(charset: u32, c: u32) -> Option<u8>
    ensures { result ≡ local_byte charset c }
{
    if charset == ISO_8859_15 {
        byte_by(&DIFFERENCES, c)
    } else {
        as_byte(c)
    }
}

// The character after rule 2.
#[tactic(auto, unfolding(crate::specs::Characters::local_of))]
pub fn local_of(charset: u32, c: u32) -> u32
    ensures { result ≡ local_of charset c }
{
    if is_private(c) {
        // `as`: the low eight bits fit.
        local_character(charset, (c % 256) as u8)
    } else {
        c
    }
}

// The base characters of U+00C0 to U+00FF, a blank where there is none: one look for a character, where rows of ranges
// took up to seventeen.
const BASES: [u8; 64] = *b"AAAAAA CEEEEIIII NOOOOO  UUUUY  aaaaaa ceeeeiiii nooooo  uuuuy y";

// The ASCII stand-ins: first character, last character, and what stands for all between.
const STAND_INS: [(u32, u32, u32); 10] = [
    (0xA0, 0xA0, 0x20),
    (0xC6, 0xC6, 0x41),
    (0xD7, 0xD7, 0x78),
    (0xD8, 0xD8, 0x4F),
    (0xDF, 0xDF, 0x73),
    (0xE6, 0xE6, 0x61),
    (0xF8, 0xF8, 0x6F),
    (0x2010, 0x2014, 0x2D),
    (0x2018, 0x2019, 0x27),
    (0x201C, 0x201D, 0x22),
];

// What stands for `c` by rows of a first character, the last, and what stands for them.
fn stands_for(rows: &[(u32, u32, u32)], c: u32) -> Option<u32>
    ensures { result ≡ stands_for rows.now c }
{
    rows.iter()
        .find(|&&(first, last, _)| first <= c && c <= last)
        .map(|&(_, _, other)| other)
}

// The base character of `c`; there is none below U+00C0 or above U+00FF.
#[tactic(auto, unfolding(crate::specs::Characters::stands_for))]
pub fn base_of(c: u32) -> Option<u32>
    ensures { result ≡ base_of c }
{
    match c {
        // `as`: Rust has no `From` from `u32` to `usize`. Nothing is narrowed.
        0xC0..=0xFF => match BASES[(c - 0xC0) as usize] {
            b' ' => None,
            base => Some(u32::from(base)),
        },
        _ => None,
    }
}

// The ASCII stand-in of `c`.
pub fn stand_in_of(c: u32) -> Option<u32>
    ensures { result ≡ stand_in_of c }
{
    stands_for(&STAND_INS, c)
}
