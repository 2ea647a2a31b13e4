// The pairs of words that are definitions; and, however a character is found among definitions, its alias walk and what
// refuses a definition.
#![tactic(auto)]

ghost use Rattle.std.specs.Prelude.{◌≡◌, List, ◌*◌, ◌≤◌, length, map};
ghost use Rattle.definitions.specs.declared.Definition.{Definition};
ghost use Rattle.definitions.specs.Definitions.{find, found_in, table, explicit};
ghost use Rattle.definitions.specs.Effects.{closes_loop, verdict_of};
ghost use Rattle.pairs.specs.Words.{meaning_of, definition_row, definitions};
ghost use Rattle.pairs.specs.Internal.{walk_with_cell};

use basics::Refusal;
use definitions::{DEFINITION_LIMIT, Definition, Meaning};

// 2^24, which parts the kind of a second word from its number.
pub const KIND_UNIT: u32 = 0x1000000;

// The end of an alias walk, how many links it has, and the cell that is found at its end.
#[derive(Clone, Copy)]
pub struct Walked {
    pub end: u32,
    pub links: usize,
    pub cell: Option<u8>,
}

// Definitions in which a character is found: by a walk over pairs, or by an order of them.
pub trait Finder {
    ghost definitions: { Self → List Definition };

    // What the earliest definition of a character says.
    fn find(&self, character: u32) -> Option<Meaning>
        ensures { result ≡ find (definitions self.now) character };

    // How many definitions there are.
    fn count(&self) -> usize
        ensures { result ≡ length (definitions self.now) };
}

// The pairs of some words that count as definitions. The words are as callers lend them, more than the pairs: behind
// these stands the local character set.
#[derive(Clone, Copy)]
pub struct Pairs<'a> {
    pub words: &'a [u32],
    pub count: usize,
    ghost fits: { 2 * count ≤ length words.now },
}

impl Pairs<'_> {
    // The pairs as rows of two words.
    #[tactic(auto, using(crate::proofs::Scan::rows_lem, crate::proofs::Scan::rows_length))]
    pub fn rows(&self) -> &[[u32; 2]]
        ensures value { map definition_row result.now ≡ definitions self.now.count self.now.words.now }
        ensures count { length result.now ≡ self.now.count }
    {
        self.words[..2 * self.count].as_chunks::<2>().0
    }
}

impl Finder for Pairs<'_> {
    ghost definitions = { λ p. definitions p.count p.words.now };

    fn find(&self, character: u32) -> Option<Meaning> {
        for row in self.rows() {
            if row[0] == character {
                return Some(meaning_of(row[1]));
            }
        }
        None
    }

    fn count(&self) -> usize {
        self.count
    }
}

// What a second word says, whatever it holds.
#[tactic(auto, using(basics::proofs::Tests::tests), unfolding(crate::specs::Words::meaning_of))]
pub fn meaning_of(w: u32) -> Meaning
    ensures { result ≡ meaning_of w }
{
    match w / KIND_UNIT {
        1 => Meaning::Typed((w % 256) as u8),
        2 => Meaning::Shown((w % 256) as u8),
        _ => Meaning::Alias(w % KIND_UNIT),
    }
}

// What a table has for a character. One of the braille row shows its low eight bits, and its definitions are not asked.
#[tactic(auto, using(basics::proofs::Tests::chosen), unfolding(definitions::specs::Definitions::found_in))]
fn found_in<T: Finder>(finder: &T, character: u32) -> Option<Meaning>
    ensures { result ≡ found_in (T.definitions finder.now) character }
{
    if scalars::is_braille(character) {
        return Some(Meaning::Shown((character % 256) as u8));
    }
    finder.find(character)
}

// The explicit cell of a character.
#[tactic(auto, unfolding(definitions::specs::Definitions::explicit))]
pub fn explicit_cell<T: Finder>(finder: &T, character: u32) -> Option<u8>
    ensures { result ≡ explicit (table (T.definitions finder.now)) character }
{
    definitions::cell_of(found_in(finder, character))
}

// The alias walk of a character. What was found at its end says the cell too, so that the end is not looked for again.
pub fn walk_from<T: Finder>(finder: &T, character: u32) -> Walked
    ensures { result ≡ walk_with_cell (table (T.definitions finder.now)) character }
{
    let mut end = character;
    let mut links = 0;
    // A `for` over the links would ask for the last character once more behind it.
    loop {
        let found = found_in(finder, end);
        if links < finder.count() {
            if let Some(target) = definitions::target_of(found) {
                end = target;
                links += 1;
                continue;
            }
        }
        let cell = definitions::cell_of(found);
        return Walked { end, links, cell };
    }
}

// Whether a definition would close a loop with those so far.
#[tactic(auto, using(basics::proofs::Tests::on_value))]
pub fn closes_loop<T: Finder>(finder: &T, d: Definition) -> bool
    ensures { result ≡ closes_loop (T.definitions finder.now) d }
{
    match definitions::meaning_target(d.meaning) {
        None => false,
        Some(target) => walk_from(finder, target).end == d.character,
    }
}

// Whether a definition may take effect after those so far: 22, 11, 12, 13 in this order.
#[tactic(auto, using(definitions::proofs::Admission::judged), unfolding(definitions::specs::Effects::verdict_of))]
pub fn judge<T: Finder>(finder: &T, d: Definition) -> Result<(), Refusal>
    ensures { result ≡ verdict_of (T.definitions finder.now) d }
{
    if scalars::is_braille(d.character) {
        return Err(Refusal::BrailleRow);
    }
    if finder.find(d.character).is_some() {
        return Err(Refusal::AlreadyDefined);
    }
    if closes_loop(finder, d) {
        return Err(Refusal::AliasLoop);
    }
    if DEFINITION_LIMIT <= finder.count() {
        return Err(Refusal::TableFull);
    }
    Ok(())
}
