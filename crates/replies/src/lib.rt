// What the calls answer, as texts.
#![tactic(auto)]

use answers::{Cells, Text};
use basics::Refused;
use lines::Rejection;
use rules::Answer;
use table::PAIR_WORDS;

// What a buffer for a listing holds before the call: a byte that no listing has.
pub const UNWRITTEN: u8 = b'.';

// What the program writes of an answer of a compile call, without its LF.
pub fn compile_text(answer: Result<usize, Rejection>) -> Text {
    let line = report::report(answer);
    let bytes = line.as_bytes();
    let mut text = Text::new();
    text.push_bytes(&bytes[..lines::line_end(bytes, 0)]);
    text
}

// The same, and the column, 0 where there is none.
pub fn column_text(answer: Result<usize, Rejection>) -> Text {
    let column = answer.err().map_or(0, |rejection| rejection.column);
    Text::of(format_args!("{} column {column}", compile_text(answer)))
}

// A refusal with its place.
pub fn refused_text(refused: Refused) -> Text {
    let number = basics::number_of(refused.refusal);
    Text::of(format_args!("refused {number} place {}", refused.place))
}

// What a lookup call answers: cell, rule and links.
pub fn looked_text(answer: Result<Answer, Refused>) -> Text {
    match answer {
        Ok(a) => Text::of(format_args!("{:02X} {} {}", a.cell, a.rule, a.links)),
        Err(refused) => refused_text(refused),
    }
}

// What a cell types.
pub fn type_text(words: &[u32], cell: u8) -> Text {
    let types = typing::typed_entries(words);
    match types.answer {
        Ok(()) => match types.entries[usize::from(cell)] {
            Some(c) => Text::of(format_args!("{c:X}")),
            None => Text::of("nothing"),
        },
        Err(refused) => refused_text(refused),
    }
}

// What a page call answers, and what it leaves in both buffers.
fn buffers_text(answer: Result<(), Refused>, cells: &[u8], rules: &[u8]) -> Text {
    let front = match answer {
        Ok(()) => Text::of("filled"),
        Err(refused) => refused_text(refused),
    };
    Text::of(format_args!("{front}{} /{}", Cells(cells), Cells(rules)))
}

// A page call by numbers: the lengths of both buffers, 16 at most, then the characters.
pub fn page_text<F: FnOnce(&[u32], &mut [u8], &mut [u8]) -> Result<(), Refused>>(
    numbers: &[u32],
    page: F,
) -> Text
    requires { F.IsAlwaysCallable page }
{
    let [width, height, characters @ ..] = numbers else {
        return Text::new();
    };
    let mut cells = [0xEE; 16];
    let mut rules = [0xEE; 16];
    // `as`, here and below: Rust has no `From` from `u32` to `usize`. Nothing is narrowed.
    let cells = &mut cells[..*width as usize % 17];
    let rules = &mut rules[..*height as usize % 17];
    let answer = page(characters, &mut *cells, &mut *rules);
    buffers_text(answer, cells, rules)
}

// What words came to that all held 7.
fn change(words: &[u32]) -> &'static str {
    if words.iter().all(|word| *word == 7) {
        "same"
    } else if words.iter().all(|word| *word == 0) {
        "zero"
    } else {
        "other"
    }
}

// What compiling answers, as a text, and what it leaves in words that all held 7: the pairs of a table, the two words
// behind them, and those beyond.
pub fn left_text(answer: Text, words: &[u32]) -> Text {
    match words.split_at_checked(PAIR_WORDS) {
        Some((pairs, [charset, last, beyond @ ..])) => Text::of(format_args!(
            "{answer} words {} set {charset} {last} beyond {}",
            change(pairs),
            change(beyond)
        )),
        _ => Text::of(format_args!("{answer} words {} beyond same", change(words))),
    }
}

// What a listing call answers.
pub fn listed_text(answer: Result<usize, Refused>) -> Text {
    match answer {
        Ok(length) => Text::of(format_args!("length {length}")),
        Err(refused) => refused_text(refused),
    }
}

// The length of a listing, and how many definitions compiling it answers; only the refusal where that refuses.
pub fn counted_text(length: usize, answer: Result<usize, Rejection>) -> Text {
    match answer {
        Ok(count) => Text::of(format_args!("length {length} count {count}")),
        Err(_) => compile_text(answer),
    }
}

// What the listing call answers, and what it leaves in a buffer of so many bytes, 200 at most, with LF as the cases
// write it.
pub fn list_text(words: &[u32], length: u32) -> Text {
    let mut buffer = [UNWRITTEN; 200];
    let buffer = &mut buffer[..length as usize % 201];
    let mut text = listed_text(listing::list_table(words, &mut *buffer));
    if !buffer.is_empty() {
        text.push(b' ');
    }
    for byte in buffer.iter() {
        match *byte {
            b'\n' => text.push_bytes(b"%0A"),
            b => text.push(b),
        }
    }
    text
}

// Whether a buffer, or the part of it past a listing, is as it was.
pub fn past_text(bytes: &[u8]) -> &'static str {
    if bytes.iter().all(|b| *b == UNWRITTEN) {
        "same"
    } else {
        "bytes other"
    }
}
