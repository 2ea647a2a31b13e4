// A compiled table: 2,050 words of a lent slice, two a definition, then the local character set and a zero. A count is
// that of the pairs that count as definitions. The local character set is a number, as in `scalars`: callers name any.
#![tactic(auto)]

ghost use Rattle.std.specs.Prelude.{◌≡◌, [], ◌∷◌, ◌++◌, ◌+◌, ◌*◌, ◌≤◌, ◌<◌, length, drop, set, replicate, IfOk};
ghost use Rattle.basics.specs.Internal.{bits_of};
ghost use Rattle.definitions.specs.Effects.{definition_limit};
ghost use Rattle.pairs.specs.Words.{pair_words, table_words, kind_unit, word_of, is_sound_word, charset_of};
ghost use Rattle.table.specs.Check.{is_zero_pair, is_definable, is_sound_pair, zero_from, check_from};
ghost use Rattle.table.specs.Check.{is_sound_end, and_end, check_of, lent_table};
ghost use Rattle.table.specs.Internal.{lent_reply};

use basics::{Refusal, Refused};
use definitions::{DEFINITION_LIMIT, Definition, Meaning};
use pairs::{KIND_UNIT, Pairs, closes_loop, meaning_of};

// Two words for each definition.
pub const PAIR_WORDS: usize = 2048;

// The words of a table: behind its pairs the local character set, and a word that is zero.
pub const TABLE_WORDS: usize = 2050;

// The second word of a definition.
fn word_of(m: Meaning) -> u32
    requires { word_of m < 4 * kind_unit }
    ensures { result ≡ word_of m }
{
    match m {
        Meaning::Typed(dots) => KIND_UNIT + u32::from(dots),
        Meaning::Shown(dots) => 2 * KIND_UNIT + u32::from(dots),
        Meaning::Alias(target) => 3 * KIND_UNIT + target,
    }
}

// Whether a second word has a good kind and number.
#[tactic(auto, using(basics::proofs::Tests::tests), unfolding(pairs::specs::Words::is_sound_word))]
fn is_sound_word(w: u32) -> bool
    ensures { result ≡ is_sound_word w }
{
    let number = w % KIND_UNIT;
    match w / KIND_UNIT {
        1 | 2 => number <= 255,
        3 => scalars::is_operand(number),
        _ => false,
    }
}

// Writes definition `k`.
pub fn put(words: &mut [u32], k: usize, d: Definition)
    requires { (2 * k + 1 < length words.old) × (word_of d.meaning < 4 * kind_unit) }
    ensures { words.new ≡ set (set words.old (2 * k) d.character) (2 * k + 1) (word_of d.meaning) }
{
    words[2 * k] = d.character;
    words[2 * k + 1] = word_of(d.meaning);
}

// Zeroes the 2,050 words.
pub fn clear(words: &mut [u32])
    requires { table_words ≤ length words.old }
    ensures { words.new ≡ replicate table_words 0 ++ drop table_words words.old }
{
    words[..TABLE_WORDS].fill(0);
}

// Makes the words an empty table for a local character set.
pub fn make_empty(words: &mut [u32], charset: u32)
    requires { table_words ≤ length words.old }
    ensures { words.new ≡ replicate pair_words 0 ++ charset ∷ 0 ∷ drop table_words words.old }
{
    clear(words);
    words[PAIR_WORDS] = charset;
}

// The local character set that words are for, 0 where they are too few to say it.
pub fn charset_of(words: &[u32]) -> u32
    ensures { result ≡ charset_of words.now }
{
    words.get(PAIR_WORDS).copied().unwrap_or(0)
}

pub fn is_zero_pair(c: u32, w: u32) -> bool
    ensures { result ≡ is_zero_pair c w }
{
    c == 0 && w == 0
}

fn is_definable(c: u32) -> bool
    ensures { result ≡ is_definable c }
{
    scalars::is_operand(c) && !scalars::is_braille(c)
}

pub fn is_sound_pair(c: u32, w: u32) -> bool
    ensures { result ≡ is_sound_pair c w }
{
    is_definable(c) && is_sound_word(w)
}

// The bits that words have between them. The walk leaves only at its end, so that it is compiled to take several words
// at a time. `utf8` has the same of bytes: one for both would need a law of the library's `BitOr`, and it states none.
#[tactic(auto, using(basics::proofs::Bits::bits_fold))]
fn bits_of(words: &[u32]) -> u32
    ensures { result ≡ bits_of words.now }
{
    words.iter().fold(0, |bits, w| bits | *w)
}

// Behind a zero pair: the pairs from `from` on are zero, or the first that is not is at fault. Most often all are
// zero, and their bits tell it soonest.
pub fn zero_from(words: &[u32], count: usize, from: usize) -> Result<usize, usize>
    requires { (length words.now ≡ pair_words) × (from ≤ definition_limit) }
    ensures { result ≡ zero_from count from (drop (2 * from) words.now) }
{
    if bits_of(&words[2 * from..]) == 0 {
        return Ok(count);
    }
    for i in from..DEFINITION_LIMIT {
        if !is_zero_pair(words[2 * i], words[2 * i + 1]) {
            return Err(i);
        }
    }
    Ok(count)
}

// The check of the pairs: each against the earlier ones, left at the first repeat. It answers how many are definitions,
// or the first pair at fault. The label is the form that docs/DECISIONS.md, Forms, names for this check; `k` is read
// behind it, which a `for` does not let.
fn check_words(words: &[u32]) -> Result<usize, usize>
    requires { length words.now ≡ pair_words }
    ensures { result ≡ check_from [] words.now }
{
    let mut k = 0;
    'pairs: while k < DEFINITION_LIMIT {
        let character = words[2 * k];
        let w = words[2 * k + 1];
        if is_zero_pair(character, w) {
            return zero_from(words, k, k + 1);
        }
        if !is_sound_pair(character, w) {
            return Err(k);
        }
        let so_far = Pairs { words, count: k };
        for row in so_far.rows() {
            if row[0] == character {
                break 'pairs;
            }
        }
        let meaning = meaning_of(w);
        if closes_loop(&so_far, Definition { character, meaning }) {
            return Err(k);
        }
        k += 1;
    }
    if k < DEFINITION_LIMIT {
        Err(k)
    } else {
        Ok(DEFINITION_LIMIT)
    }
}

// Whether the two words behind the pairs are sound.
fn is_sound_end(charset: u32, last: u32) -> bool
    ensures { result ≡ is_sound_end charset last }
{
    scalars::is_charset(charset) && last == 0
}

// The check of the pairs and of the two words behind them, which are at fault as a pair behind all others.
pub fn and_end(checked: Result<usize, usize>, charset: u32, last: u32) -> Result<usize, usize>
    ensures { result ≡ and_end (is_sound_end charset last) checked }
{
    let count = checked?;
    if is_sound_end(charset, last) {
        return Ok(count);
    }
    Err(DEFINITION_LIMIT)
}

// Which table a lent slice is, how many definitions it has, or its first pair at fault.
pub fn check_table(words: &[u32]) -> Result<usize, usize>
    requires { table_words ≤ length words.now }
    ensures { result ≡ check_of words.now }
{
    let pairs = check_words(&words[..PAIR_WORDS]);
    and_end(pairs, words[PAIR_WORDS], words[PAIR_WORDS + 1])
}

// The table that any lent slice is, or its refusal: too short, or no table by its first pair at fault.
pub fn lent_table(words: &[u32]) -> Result<Pairs<'_>, Refused>
    ensures definitions { lent_reply result ≡ lent_table words.now }
    ensures words { IfOk result (λ pairs. pairs.words.now ≡ words.now) }
{
    if words.len() < TABLE_WORDS {
        return Err(Refusal::ShortSlice.into());
    }
    match check_table(words) {
        Ok(count) => Ok(Pairs { words, count }),
        Err(place) => Err(Refused {
            refusal: Refusal::NotTable,
            place,
        }),
    }
}
