// The answers to cases about orders. A question that goes by an order says behind a slash how many of its words are
// lent, 1,024 where it does not, and behind a second one the words that are put over its front.
#![tactic(auto)]

ghost use Rattle.std.specs.Prelude.{◌≤◌};

use answers::Text;
use basics::Refused;
use by_order::{Sought, build_order, look_up_by, page_by};
use definitions::DEFINITION_LIMIT;
use fields::Numbers;
use std::fmt;
use std::fmt::{Display, Write};

// Eight words more than an order takes.
const ORDER: usize = DEFINITION_LIMIT + 8;

// What the words of a buffer hold before it is built in: the number of no pair.
const UNWRITTEN: u32 = 0xFFFF_FFFF;

// A buffer of which the first `length` words are lent.
#[derive(Clone, Copy)]
struct Order {
    words: [u32; ORDER],
    length: usize,
    ghost within: { length ≤ 1032 },
}

impl Order {
    fn unwritten() -> Order {
        Order {
            words: [UNWRITTEN; ORDER],
            length: DEFINITION_LIMIT,
        }
    }

    // The order of a table, with what a question says of it.
    fn of(words: &[u32], part: &[u8]) -> Order {
        let mut order = Order::unwritten();
        let _ = build_order(words, &mut order.words);
        order.put(part);
        order
    }

    // Puts what a question says: how many words are lent, and behind a slash those that are put over the front.
    fn put(&mut self, part: &[u8]) {
        if part.is_empty() {
            return;
        }
        let (length, words) = fields::split(part, b'/');
        // `as`: Rust has no `From` from `u32` to `usize`.
        self.length = fields::number(length) as usize % (ORDER + 1);
        fields::put_numbers(&mut self.words, words);
    }

    fn lent(&self) -> &[u32] {
        &self.words[..self.length]
    }
}

// The first words, 16 at most, each behind a blank.
#[derive(Clone, Copy)]
struct Front<'a>(&'a [u32]);

impl Display for Front<'_> {
    fn fmt<W: Write>(&self, f: &mut fmt::Formatter<W>) -> fmt::Result {
        for word in self.0.iter().take(16) {
            write!(f, " {word}")?;
        }
        Ok(())
    }
}

// What building answers, and what it leaves. The question says how long the buffer is, and behind a slash the words
// that are put over its front before.
pub fn build_answer(words: &[u32], question: &[u8]) -> Text {
    let mut order = Order::unwritten();
    order.put(question);
    let length = order.length;
    let buffer = &mut order.words[..length];
    let answer = match build_order(words, &mut *buffer) {
        Ok(count) => Text::of(format_args!("count {count}")),
        Err(refused) => replies::refused_text(refused),
    };
    let end = buffer
        .iter()
        .rposition(|word| *word != UNWRITTEN)
        .map_or(0, |last| last + 1);
    let front = Front(&buffer[..end]);
    let stay = length - end;
    Text::of(format_args!("{answer} words{front} stay {stay}"))
}

// The pair number or none, and the comparisons.
fn searched_text(answer: Result<Sought, Refused>) -> Text {
    match answer {
        Ok(sought) => match sought.pair {
            Some(k) => Text::of(format_args!("{k} {}", sought.comparisons)),
            None => Text::of(format_args!("none {}", sought.comparisons)),
        },
        Err(refused) => replies::refused_text(refused),
    }
}

// The search call for each of 12 characters at most, with commas between the answers.
pub fn search_answer(words: &[u32], question: &[u8]) -> Text {
    let (front, part) = fields::split(question, b'/');
    let order = Order::of(words, part);
    let Some(characters) = Numbers::<12>::read(front) else {
        return Text::new();
    };
    let mut all = Text::new();
    for (i, c) in characters.as_slice().iter().enumerate() {
        if i != 0 {
            all.push_bytes(b", ");
        }
        all.push_bytes(searched_text(by_order::search(words, order.lent(), *c)).as_bytes());
    }
    all
}

// The lookup call by an order.
pub fn look_answer(words: &[u32], question: &[u8]) -> Text {
    let (front, part) = fields::split(question, b'/');
    let order = Order::of(words, part);
    replies::looked_text(look_up_by(words, order.lent(), fields::number(front)))
}

// The page call by an order.
pub fn page_answer(words: &[u32], question: &[u8]) -> Text {
    let (front, part) = fields::split(question, b'/');
    let order = Order::of(words, part);
    let Some(numbers) = Numbers::<18>::read(front) else {
        return Text::new();
    };
    replies::page_text(numbers.as_slice(), |page, cells, rules| {
        page_by(words, order.lent(), page, cells, rules)
    })
}
