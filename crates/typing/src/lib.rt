// From a typed cell to its character.
#![tactic(auto)]

ghost use Rattle.std.specs.Prelude.{◌≡◌};
ghost use Rattle.basics.specs.Refusals.{reply_of};
ghost use Rattle.pairs.specs.Words.{definitions};
ghost use Rattle.typing.specs.Typing.{entries_of, typing_reply, typing_entries};

use basics::Refused;
use definitions::Meaning;
use pairs::Pairs;

// What the typing call hands back: its answer, and what each of the 256 cells types. A refused call promises that no
// cell types anything, so the entries stand beside the answer.
#[derive(Clone, Copy)]
pub struct Entries {
    pub answer: Result<(), Refused>,
    pub entries: [Option<u32>; 256],
}

// The entry table: each cell at first typing nothing, then from the `char` definitions in order, the earliest kept.
#[tactic(auto, using(crate::proofs::Calls::scanned))]
fn fill_entries(pairs: Pairs<'_>) -> [Option<u32>; 256]
    ensures { result ≡ entries_of (definitions pairs.entry.count pairs.entry.words.now) }
{
    let mut entries = [None; 256];
    for row in pairs.rows() {
        if let Meaning::Typed(dots) = pairs::meaning_of(row[1]) {
            let at = usize::from(dots);
            if entries[at].is_none() {
                entries[at] = Some(row[0]);
            }
        }
    }
    entries
}

// The typing call: any slice.
pub fn typed_entries(words: &[u32]) -> Entries
    ensures answer { reply_of result.answer ≡ typing_reply words.now }
    ensures entries { result.entries ≡ typing_entries words.now }
{
    match table::lent_table(words) {
        Ok(pairs) => Entries {
            answer: Ok(()),
            entries: fill_entries(pairs),
        },
        Err(refused) => Entries {
            answer: Err(refused),
            entries: [None; 256],
        },
    }
}
