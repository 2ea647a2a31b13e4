// The calls by an order of a table's pairs: building it, the search, the lookup call and the page call.
#![tactic(auto)]

ghost use Rattle.std.specs.Prelude.{◌≡◌, ◌≤◌, length};
ghost use Rattle.basics.specs.Refusals.{reply_of};
ghost use Rattle.basics.specs.Buffers.{over};
ghost use Rattle.pairs.specs.Words.{charset_of};
ghost use Rattle.table.specs.Check.{lent_table};
ghost use Rattle.definitions.specs.Definitions.{table};
ghost use Rattle.rules.specs.Internal.{lookup_by};
ghost use Rattle.order.specs.Order.{searched};
ghost use Rattle.lookup.specs.Calls.{LentLinks, Pages};
ghost use Rattle.by_order.specs.Calls.{Builds, ordered_lookup, ordered_plan, sought_of, search_reply};
ghost use Rattle.by_order.specs.Internal.{plain, cells_of, rules_of, shown_of, Kept};

use basics::{Refusal, Refused};
use definitions::DEFINITION_LIMIT;
use order::InOrder;
use ordered::{Marked, SLOTS};
use pairs::Finder;
use rules::{Answer, Rules};

// What a search tells: the number of the pair that has the character, if one has it, and how many pairs were looked at.
#[derive(Clone, Copy)]
pub struct Sought {
    pub pair: Option<usize>,
    pub comparisons: usize,
}

// A character, and what a page shows for it. The rule is a number, as in `rules::Answer`.
#[derive(Clone, Copy)]
struct Shown {
    character: u32,
    cell: u8,
    rule: u8,
}

// Answers that a page has had, each in the slot of its character; a later character takes a slot over. An array each of
// characters, cells and rules takes 24 KB, where one of `Shown` takes 32, and begins by filling bytes.
#[derive(Drop)]
struct Memory<T: Finder + Copy> {
    by: Rules<T>,
    seen: [u32; SLOTS],
    cells: [u8; SLOTS],
    rules: [u8; SLOTS],
    ghost right: { Kept (lookup_by by.charset (table (T.definitions by.finder)) by.last) seen cells rules },
}

impl<T: Finder + Copy> Memory<T> {
    // What is shown for a character: as it is kept, or by the rules, and then kept.
    fn recall(&mut self, character: u32) -> Shown
        ensures same { self.new.by ≡ self.old.by }
        ensures shows { result
            ≡ shown_of (lookup_by self.old.by.charset (table (T.definitions self.old.by.finder)) self.old.by.last)
            character }
    {
        let slot = ordered::slot_of(character);
        if self.seen[slot] == character {
            return Shown {
                character,
                cell: self.cells[slot],
                rule: self.rules[slot],
            };
        }
        let shown = shown_by(&self.by, character);
        self.seen[slot] = character;
        self.cells[slot] = shown.cell;
        self.rules[slot] = shown.rule;
        shown
    }
}

// What is shown for a character by the rules.
fn shown_by<T: Finder>(by: &Rules<T>, character: u32) -> Shown
    ensures { result ≡ shown_of (lookup_by by.now.charset (table (T.definitions by.now.finder)) by.now.last) character }
{
    let answer = by.answer_of(character);
    Shown {
        character,
        cell: answer.cell,
        rule: answer.rule,
    }
}

// The building call: any slices.
pub fn build_order(words: &[u32], order: &mut [u32]) -> Result<usize, Refused>
    ensures { Builds words.now order.old result order.new }
{
    if order.len() < DEFINITION_LIMIT {
        return Err(Refusal::ShortSlice.into());
    }
    let count = table::lent_table(words)?.count;
    order::put_in_order(words, count, order);
    Ok(count)
}

// The search for a character.
fn seek(in_order: &InOrder<'_>, c: u32) -> Sought
    ensures { result
        ≡ sought_of in_order.now.order.now
        (searched in_order.now.words.now in_order.now.order.now in_order.now.count c) }
{
    let halved = in_order.halve(c);
    // `as`: Rust has no `From` from `u32` to `usize`.
    let pair = match halved.place {
        Ok(place) => Some(in_order.order[place] as usize),
        Err(_) => None,
    };
    Sought {
        pair,
        comparisons: halved.comparisons,
    }
}

// The search call: any slices, any number. The lookup call begins with the same two tests: a function for both calls
// would have to promise each of them.
pub fn search(words: &[u32], order: &[u32], c: u32) -> Result<Sought, Refused>
    ensures { reply_of result ≡ search_reply words.now order.now c }
{
    let in_order = ordered::test_both(words, order)?;
    if !scalars::is_scalar(c) {
        return Err(Refusal::NotScalar.into());
    }
    Ok(seek(&in_order, c))
}

// The answer for one scalar value. It is not worth marks of its own, so every slot has one.
fn answer_in(in_order: &InOrder<'_>, c: u32) -> Answer
    ensures { result ≡ plain in_order.now.words.now in_order.now.count c }
{
    let in_order = *in_order;
    let marks = [1; SLOTS];
    let finder = Marked {
        in_order,
        marks: &marks,
        limit: in_order.count,
    };
    let by = Rules::new(finder, table::charset_of(in_order.words));
    by.answer_of(c)
}

// The lookup call by an order: any slices, any number.
pub fn look_up_by(words: &[u32], order: &[u32], c: u32) -> Result<Answer, Refused>
    ensures answer { reply_of result ≡ ordered_lookup words.now order.now c }
    ensures links { LentLinks (charset_of words.now) (lent_table words.now) c (reply_of result) }
{
    let in_order = ordered::test_both(words, order)?;
    if !scalars::is_scalar(c) {
        return Err(Refusal::NotScalar.into());
    }
    Ok(answer_in(&in_order, c))
}

// Fills both buffers, a cell and a rule for each character, with answers that are kept on the way. The loop is that of
// `lookup::fill` but for its memory, which each character may change.
fn fill_kept<T: Finder + Copy>(
    memory: &mut Memory<T>,
    characters: &[u32],
    cells: &mut [u8],
    rules: &mut [u8],
)
    requires wide { length characters.now ≤ length cells.old }
    requires deep { length characters.now ≤ length rules.old }
    ensures cells { cells.new
        ≡ over
        (cells_of (lookup_by memory.old.by.charset (table (T.definitions memory.old.by.finder)) memory.old.by.last)
        characters.now)
        cells.old }
    ensures rules { rules.new
        ≡ over
        (rules_of (lookup_by memory.old.by.charset (table (T.definitions memory.old.by.finder)) memory.old.by.last)
        characters.now)
        rules.old }
{
    for i in 0..characters.len() {
        let shown = memory.recall(characters[i]);
        cells[i] = shown.cell;
        rules[i] = shown.rule;
    }
}

// Fills both buffers by an order.
fn fill_by(in_order: &InOrder<'_>, characters: &[u32], cells: &mut [u8], rules: &mut [u8])
    requires wide { length characters.now ≤ length cells.old }
    requires deep { length characters.now ≤ length rules.old }
    ensures cells { cells.new
        ≡ over (cells_of (plain in_order.now.words.now in_order.now.count) characters.now) cells.old }
    ensures rules { rules.new
        ≡ over (rules_of (plain in_order.now.words.now in_order.now.count) characters.now) rules.old }
{
    let in_order = *in_order;
    let mut marks = [0; SLOTS];
    ordered::put_marks(in_order.words, in_order.count, &mut marks);
    let finder = Marked {
        in_order,
        marks: &marks,
        limit: in_order.count,
    };
    let by = Rules::new(finder, table::charset_of(in_order.words));
    // Each slot begins with the character U+0000. The memory is made where it stays: a function that hands it back
    // copies it.
    let first = shown_by(&by, 0);
    let mut memory = Memory {
        by,
        seen: [0; SLOTS],
        cells: [first.cell; SLOTS],
        rules: [first.rule; SLOTS],
    };
    fill_kept(&mut memory, characters, cells, rules);
}

// The page call by an order: any slices.
pub fn page_by(
    words: &[u32],
    order: &[u32],
    characters: &[u32],
    cells: &mut [u8],
    rules: &mut [u8],
) -> Result<(), Refused>
    ensures { Pages (λ reply. reply)
        (ordered_plan words.now order.now characters.now (length cells.old) (length rules.old))
        characters.now cells.old rules.old (reply_of result) cells.new rules.new }
{
    if cells.len() < characters.len() || rules.len() < characters.len() {
        return Err(Refusal::ShortSlice.into());
    }
    let in_order = ordered::test_both(words, order)?;
    if let Some(place) = lookup::first_no_scalar(characters) {
        return Err(Refused {
            refusal: Refusal::NotScalar,
            place,
        });
    }
    fill_by(&in_order, characters, cells, rules);
    Ok(())
}
