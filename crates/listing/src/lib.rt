// A table listed back as text: a line a definition, in order.
#![tactic(auto)]

ghost use Rattle.std.specs.Prelude.{◌≡◌, ◌∷◌, ◌+◌, ◌≤◌, length};
ghost use Rattle.basics.specs.Buffers.{over};
ghost use Rattle.definitions.specs.Effects.{definition_limit};
ghost use Rattle.pairs.specs.Words.{definitions};
ghost use Rattle.writing.specs.Writing.{dots_text, Put};
ghost use Rattle.listing.specs.Listing.{escaped, directive_word, operand_text, listing, Lists};
ghost use Rattle.listing.specs.Internal.{whole_line, line_length};

use basics::{Refusal, Refused};
use definitions::{Definition, Meaning};
use pairs::Pairs;

// The most bytes that a listing has: 1,024 lines of 28.
pub const LISTING_LIMIT: usize = 28672;

// The directive word of a definition.
fn directive_word(m: Meaning) -> &'static [u8]
    ensures { result.now ≡ directive_word m }
{
    match m {
        Meaning::Typed(_) => b"char",
        Meaning::Shown(_) => b"glyph",
        Meaning::Alias(_) => b"alias",
    }
}

// Puts a blank and a character. The buffer and the place are passed on by themselves: a struct that holds a lent buffer
// has to promise in each contract that it still holds the same one.
fn put_character(buffer: &mut [u8], at: usize, c: u32) -> usize
    requires { at + length (32 ∷ escaped c) ≤ length buffer.old }
    ensures { Put buffer.old at (32 ∷ escaped c) result buffer.new }
{
    let digits = writing::hex_digits(c);
    let escaped = writing::put_bytes(buffer, at, b" \\U");
    writing::put_bytes(buffer, escaped, &digits)
}

// Puts a blank and dots.
fn put_dots(buffer: &mut [u8], at: usize, cell: u8) -> usize
    requires { at + length (32 ∷ dots_text cell) ≤ length buffer.old }
    ensures { Put buffer.old at (32 ∷ dots_text cell) result buffer.new }
{
    let digits = writing::dots_digits(cell);
    let blank = writing::put_byte(buffer, at, b' ');
    writing::put_bytes(buffer, blank, digits.as_slice())
}

// Puts a blank and what follows the character.
fn put_operand(buffer: &mut [u8], at: usize, m: Meaning) -> usize
    requires { at + length (32 ∷ operand_text m) ≤ length buffer.old }
    ensures { Put buffer.old at (32 ∷ operand_text m) result buffer.new }
{
    match m {
        Meaning::Typed(dots) | Meaning::Shown(dots) => put_dots(buffer, at, dots),
        Meaning::Alias(target) => put_character(buffer, at, target),
    }
}

// Puts a line with its LF.
fn put_line(buffer: &mut [u8], at: usize, d: Definition) -> usize
    requires { at + length (whole_line d) ≤ length buffer.old }
    ensures { Put buffer.old at (whole_line d) result buffer.new }
{
    let word = writing::put_bytes(buffer, at, directive_word(d.meaning));
    let character = put_character(buffer, word, d.character);
    let operand = put_operand(buffer, character, d.meaning);
    writing::put_byte(buffer, operand, b'\n')
}

// How long a line is with its LF: beside its dots a `char` line has 17 bytes and a `glyph` line 18.
fn line_length(m: Meaning) -> usize
    ensures { (result ≡ line_length m) × (result ≤ 28) }
{
    match m {
        Meaning::Typed(dots) => 17 + writing::dots_length(dots),
        Meaning::Shown(dots) => 18 + writing::dots_length(dots),
        Meaning::Alias(_) => 28,
    }
}

// How long the listing of the definitions is.
fn listing_length(pairs: Pairs<'_>) -> usize
    requires { pairs.count ≤ definition_limit }
    ensures { result ≡ length (listing (definitions pairs.entry.count pairs.entry.words.now)) }
{
    let mut sum = 0;
    for row in pairs.rows() {
        sum += line_length(pairs::meaning_of(row[1]));
    }
    sum
}

// Writes the listing of the definitions.
fn put_listing(pairs: Pairs<'_>, buffer: &mut [u8])
    requires { length (listing (definitions pairs.count pairs.words.now)) ≤ length buffer.old }
    ensures { buffer.new ≡ over (listing (definitions pairs.entry.count pairs.entry.words.now)) buffer.old }
{
    let mut at = 0;
    for row in pairs.rows() {
        let character = row[0];
        let meaning = pairs::meaning_of(row[1]);
        at = put_line(buffer, at, Definition { character, meaning });
    }
}

// The listing call: any slices.
#[tactic(auto, using(crate::proofs::Calls::planned))]
pub fn list_table(words: &[u32], buffer: &mut [u8]) -> Result<usize, Refused>
    ensures { Lists words.now buffer.old result buffer.new }
{
    let pairs = table::lent_table(words)?;
    let length = listing_length(pairs);
    if buffer.len() < length {
        return Err(Refusal::ShortSlice.into());
    }
    put_listing(pairs, buffer);
    Ok(length)
}
