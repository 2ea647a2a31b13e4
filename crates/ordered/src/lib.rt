// A table with an order of its pairs: a character is found in it by halving, and it is checked by its order. A count is
// that of the pairs that count as definitions.
#![tactic(auto)]

ghost use Rattle.std.specs.Prelude.{◌≡◌, [], ◌*◌, ◌≤◌, ◌<◌, length, take, IfOk};
ghost use Rattle.definitions.specs.Effects.{definition_limit};
ghost use Rattle.pairs.specs.Words.{pair_words, table_words, definitions};
ghost use Rattle.table.specs.Check.{check_from, check_of};
ghost use Rattle.ordered.specs.Internal.{slots, slot_of, Marks, pairs_from, Tests};

use basics::{Refusal, Refused};
use definitions::{DEFINITION_LIMIT, Definition, Meaning};
use order::InOrder;
use pairs::{Finder, closes_loop, meaning_of};
use table::{PAIR_WORDS, TABLE_WORDS};

// As many slots as marks or answers are kept in.
pub const SLOTS: usize = 4096;

// The first `limit` pairs of some words in order. A slot without a mark tells soonest that a character has no pair.
#[derive(Clone, Copy)]
pub struct Marked<'o, 'm> {
    pub in_order: InOrder<'o>,
    pub marks: &'m [u8],
    pub limit: usize,
    ghost marked: { Marks in_order.words.now in_order.count marks.now },
    ghost within: { limit ≤ in_order.count },
}

impl Finder for Marked<'_, '_> {
    ghost definitions = { λ m. definitions m.limit m.in_order.words.now };

    #[tactic(auto, using(crate::proofs::Finds::finds))]
    fn find(&self, character: u32) -> Option<Meaning> {
        if self.marks[slot_of(character)] == 0 {
            return None;
        }
        let Ok(place) = self.in_order.halve(character).place else {
            return None;
        };
        // `as`, here and below: Rust has no `From` from `u32` to `usize`. Nothing is narrowed.
        let k = self.in_order.order[place] as usize;
        if self.limit <= k {
            return None;
        }
        Some(meaning_of(self.in_order.words[2 * k + 1]))
    }

    #[tactic(auto, using(crate::proofs::Finds::counted))]
    fn count(&self) -> usize {
        self.limit
    }
}

// The slot of a character: the factor, 2^32 by the golden ratio, spreads neighbours and rows alike.
#[tactic(auto, unfolding(crate::specs::Internal::slot_of))]
pub fn slot_of(c: u32) -> usize
    ensures is { result ≡ slot_of c }
    ensures within { result < slots }
{
    c as usize * 2654435761 / 1048576 % SLOTS
}

// Marks the slot of each defined character.
pub fn put_marks(words: &[u32], count: usize, marks: &mut [u8])
    requires { (2 * count ≤ length words.now) × (length marks.old ≡ slots) }
    ensures { Marks words.now count marks.new }
{
    for k in 0..count {
        marks[slot_of(words[2 * k])] = 1;
    }
}

// How many pairs stand before the first zero pair.
#[tactic(auto, using(crate::proofs::Checks::counting))]
fn count_pairs(words: &[u32]) -> usize
    requires { length words.now ≡ pair_words }
    ensures is { result ≡ pairs_from 0 words.now }
    ensures within { result ≤ definition_limit }
{
    for k in 0..DEFINITION_LIMIT {
        if table::is_zero_pair(words[2 * k], words[2 * k + 1]) {
            return k;
        }
    }
    DEFINITION_LIMIT
}

// The check of the pairs, those before the first zero pair in order, so that no two of them have the same character. It
// stands beside `table::check_words`, whose form the papers name, and which scans.
fn check_pairs(all: &Marked<'_, '_>) -> Result<usize, usize>
    requires size { length all.now.in_order.words.now ≡ pair_words }
    requires few { all.now.in_order.count ≤ definition_limit }
    requires counted { all.now.in_order.count ≡ pairs_from 0 all.now.in_order.words.now }
    ensures { result ≡ check_from [] all.now.in_order.words.now }
{
    let InOrder { words, count, .. } = all.in_order;
    for k in 0..count {
        let character = words[2 * k];
        let w = words[2 * k + 1];
        if !table::is_sound_pair(character, w) {
            return Err(k);
        }
        let meaning = meaning_of(w);
        let so_far = Marked {
            in_order: all.in_order,
            marks: all.marks,
            limit: k,
        };
        if closes_loop(&so_far, Definition { character, meaning }) {
            return Err(k);
        }
    }
    table::zero_from(words, count, count)
}

// Which table a slice is, or its first pair at fault, as `table::check_table` says it: by the order of the pairs before
// the first zero pair.
fn check_by(in_order: &InOrder<'_>) -> Result<usize, usize>
    requires long { table_words ≤ length in_order.now.words.now }
    requires few { in_order.now.count ≤ definition_limit }
    requires counted { in_order.now.count ≡ pairs_from 0 (take pair_words in_order.now.words.now) }
    ensures { result ≡ check_of in_order.now.words.now }
{
    let InOrder {
        words,
        order,
        count,
    } = *in_order;
    let marks = [1; SLOTS];
    let pairs = InOrder {
        words: &words[..PAIR_WORDS],
        order,
        count,
    };
    let all = Marked {
        in_order: pairs,
        marks: &marks,
        limit: count,
    };
    let checked = check_pairs(&all);
    table::and_end(checked, words[PAIR_WORDS], words[PAIR_WORDS + 1])
}

// Tests a slice and an order, once a call: the table's pairs in order, or a refusal with its place. Where the order is
// not that of the pairs, the plain check decides whether the slice is a table.
pub fn test_both<'a>(words: &'a [u32], order: &'a [u32]) -> Result<InOrder<'a>, Refused>
    ensures tests { Tests words.now order.now result }
    ensures lent { IfOk result (λ in_order. (in_order.words.now ≡ words.now) × (in_order.order.now ≡ order.now)) }
{
    if order.len() < DEFINITION_LIMIT || words.len() < TABLE_WORDS {
        return Err(Refusal::ShortSlice.into());
    }
    let count = count_pairs(&words[..PAIR_WORDS]);
    if !order::is_rising(words, count, order) {
        let _ = table::lent_table(words)?;
        return Err(Refusal::WrongOrder.into());
    }
    let in_order = InOrder {
        words,
        order,
        count,
    };
    match check_by(&in_order) {
        Ok(_) => Ok(in_order),
        Err(place) => Err(Refused {
            refusal: Refusal::NotTable,
            place,
        }),
    }
}
