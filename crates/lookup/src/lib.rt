// From a character to its cell: the lookup call and the page call.
#![tactic(auto)]

ghost use Rattle.std.specs.Prelude.{◌≡◌, map, ◌≤◌, length};
ghost use Rattle.basics.specs.Refusals.{reply_of};
ghost use Rattle.basics.specs.Buffers.{over};
ghost use Rattle.definitions.specs.Definitions.{table};
ghost use Rattle.pairs.specs.Words.{charset_of};
ghost use Rattle.table.specs.Check.{lent_table};
ghost use Rattle.rules.specs.Internal.{lookup_by};
ghost use Rattle.lookup.specs.Calls.{lookup_reply, LentLinks, first_no_scalar, page_plan, Pages};

use basics::{Refusal, Refused};
use pairs::Finder;
use rules::{Answer, Rules};

// The lookup call: any slice, any number.
pub fn look_up(words: &[u32], c: u32) -> Result<Answer, Refused>
    ensures answer { reply_of result ≡ lookup_reply words.now c }
    ensures links { LentLinks (charset_of words.now) (lent_table words.now) c (reply_of result) }
{
    let pairs = table::lent_table(words)?;
    if !scalars::is_scalar(c) {
        return Err(Refusal::NotScalar.into());
    }
    let rules = Rules::new(pairs, table::charset_of(words));
    Ok(rules.answer_of(c))
}

// The first character that is no scalar value.
pub fn first_no_scalar(characters: &[u32]) -> Option<usize>
    ensures { result ≡ first_no_scalar characters.now 0 }
{
    characters.iter().position(|c| !scalars::is_scalar(*c))
}

// Fills both buffers, a cell and a rule for each character.
pub fn fill<T: Finder>(by: &Rules<T>, characters: &[u32], cells: &mut [u8], rules: &mut [u8])
    requires { (length characters.now ≤ length cells.old) × (length characters.now ≤ length rules.old) }
    ensures cells { cells.new ≡ over
        (map (λ c. (lookup_by by.now.charset (table (T.definitions by.now.finder)) by.now.last c).cell)
        characters.now)
        cells.old }
    ensures rules { rules.new ≡ over
        (map (λ c. (lookup_by by.now.charset (table (T.definitions by.now.finder)) by.now.last c).rule)
        characters.now)
        rules.old }
{
    // Three slices side by side: an index is plainer than two zips.
    for i in 0..characters.len() {
        let answer = by.answer_of(characters[i]);
        cells[i] = answer.cell;
        rules[i] = answer.rule;
    }
}

// The page call: any slices. A buffer that is too short is told before what the table is.
pub fn page(
    words: &[u32],
    characters: &[u32],
    cells: &mut [u8],
    rules: &mut [u8],
) -> Result<(), Refused>
    ensures { Pages (λ reply. reply)
        (page_plan words.now characters.now (length cells.old) (length rules.old))
        characters.now cells.old rules.old (reply_of result) cells.new rules.new }
{
    if cells.len() < characters.len() || rules.len() < characters.len() {
        return Err(Refusal::ShortSlice.into());
    }
    let pairs = table::lent_table(words)?;
    if let Some(place) = first_no_scalar(characters) {
        return Err(Refused {
            refusal: Refusal::NotScalar,
            place,
        });
    }
    let by = Rules::new(pairs, table::charset_of(words));
    fill(&by, characters, cells, rules);
    Ok(())
}
