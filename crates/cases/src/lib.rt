// Runs a case: a line of five fields that says a call, a text, a question, the answer that is expected and what it is
// about. Behind the call stands the local character set, ISO 8859-1 where none is named. It is a number, as in
// `scalars`: callers name any.
#![tactic(auto)]

ghost use Rattle.std.specs.Prelude.{◌≡◌, ◌≤◌};
ghost use Rattle.fields.specs.Fields.{first_field, behind_mark};

use answers::{Cells, Text};
use basics::Refusal;
use fields::Numbers;
use lines::{Rejection, TEXT_LIMIT};
use listing::LISTING_LIMIT;
use replies::UNWRITTEN;
use scalars::ISO_8859_1;
use table::{PAIR_WORDS, TABLE_WORDS};

// Two words more than a table has.
const WORDS: usize = TABLE_WORDS + 2;

// Eight bytes more than a listing has.
const LISTING: usize = LISTING_LIMIT + 8;

// The editions of text tables: byte tables, and the present one.
const BYTES: u32 = 1;

const PRESENT: u32 = 2;

// The refusals in the order of their numbers.
const REFUSALS: [Refusal; 23] = [
    Refusal::TextTooLong,
    Refusal::ShortSlice,
    Refusal::LineTooLong,
    Refusal::NotUtf8,
    Refusal::UnknownDirective,
    Refusal::MissingOperand,
    Refusal::BadCharacter,
    Refusal::BadDots,
    Refusal::TrailingText,
    Refusal::TooManyConditions,
    Refusal::AlreadyDefined,
    Refusal::AliasLoop,
    Refusal::TableFull,
    Refusal::NotScalar,
    Refusal::NotTable,
    Refusal::BadState,
    Refusal::StrayBlockWord,
    Refusal::UnclosedBlock,
    Refusal::BeyondPage,
    Refusal::UnknownEdition,
    Refusal::UnknownCharset,
    Refusal::BrailleRow,
    Refusal::WrongOrder,
];

// What a question asks of the words of a table: a lookup, what a cell types, a page, a page by windows, its listing, or
// that read back; its order, or a search, a lookup or a page by it.
#[derive(Clone, Copy)]
enum Call {
    Show,
    Type,
    Page,
    Windows,
    List,
    Back,
    Order,
    Search,
    ShowBy,
    PageBy,
}

// Which words a question goes to: the table that the text compiles to, or words that the text lists, as many as a table
// has, one fewer, or two more.
#[derive(Clone, Copy)]
enum Source {
    Compiled,
    Lent,
    Short,
    Beyond,
}

#[derive(Clone, Copy)]
enum Kind {
    Table(Source, Call),
    Compile,
    Column,
    Left,
    Attributes,
    AttributesColumn,
    Dots,
    Bytes,
    Row,
    Edition,
    Report,
}

impl Call {
    fn named(word: &[u8]) -> Option<Call> {
        Some(match word {
            b"show" => Call::Show,
            b"type" => Call::Type,
            b"page" => Call::Page,
            b"windows" => Call::Windows,
            b"list" => Call::List,
            b"back" => Call::Back,
            b"order" => Call::Order,
            b"search" => Call::Search,
            b"show_by" => Call::ShowBy,
            b"page_by" => Call::PageBy,
            _ => return None,
        })
    }

    // What a call answers of these words. One `match`, in which each call takes what it needs of them.
    fn answer(self, words: &[u32], question: &[u8]) -> Text {
        let n = fields::number(question);
        // `as`, here and below: Rust has no `From` from `u32` to `u8` or `usize`; the remainder that is narrowed fits.
        match self {
            Call::Show => replies::looked_text(lookup::look_up(words, n)),
            Call::Type => replies::type_text(words, (n % 256) as u8),
            Call::Page => page_answer(words, question),
            Call::Windows => windows_answer(words, question),
            Call::List => replies::list_text(words, n),
            Call::Back => back_answer(words, n),
            Call::Order => order_cases::build_answer(words, question),
            Call::Search => order_cases::search_answer(words, question),
            Call::ShowBy => order_cases::look_answer(words, question),
            Call::PageBy => order_cases::page_answer(words, question),
        }
    }
}

impl Source {
    // How many words these are.
    fn length(self) -> usize
        ensures { result ≤ 2052 }
    {
        match self {
            Source::Compiled | Source::Lent => TABLE_WORDS,
            Source::Short => TABLE_WORDS - 1,
            Source::Beyond => WORDS,
        }
    }

    // What a call answers of these words.
    fn answer(self, call: Call, charset: u32, text: &[u8], question: &[u8]) -> Text {
        let mut words = [0; WORDS];
        if let Source::Compiled = self {
            let _ = compile(PRESENT, charset, text, &mut words[..TABLE_WORDS]);
        } else {
            words[PAIR_WORDS] = charset;
            // Those beyond a table hold what no table could.
            words[TABLE_WORDS..].fill(7);
            fields::put_numbers(&mut words, text);
        }
        call.answer(&words[..self.length()], question)
    }
}

impl Kind {
    // The kind of a name: a call, behind the words that it goes to where these are listed, or a case that asks no
    // table.
    fn named(word: &[u8]) -> Option<Kind> {
        Some(match word {
            b"compile" => Kind::Compile,
            b"column" => Kind::Column,
            b"left" => Kind::Left,
            b"attributes" => Kind::Attributes,
            b"attributes_column" => Kind::AttributesColumn,
            b"dots" => Kind::Dots,
            b"bytes" => Kind::Bytes,
            b"row" => Kind::Row,
            b"edition" => Kind::Edition,
            b"report" => Kind::Report,
            b"lent" => Kind::Table(Source::Lent, Call::Show),
            b"short" => Kind::Table(Source::Short, Call::Show),
            b"beyond" => Kind::Table(Source::Beyond, Call::Show),
            _ => {
                let (source, name) = match word {
                    [b'l', b'e', b'n', b't', b'_', name @ ..] => (Source::Lent, name),
                    [b's', b'h', b'o', b'r', b't', b'_', name @ ..] => (Source::Short, name),
                    [b'b', b'e', b'y', b'o', b'n', b'd', b'_', name @ ..] => (Source::Beyond, name),
                    _ => return Some(Kind::Table(Source::Compiled, Call::named(word)?)),
                };
                match Call::named(name)? {
                    // A lookup is not named there.
                    Call::Show => return None,
                    call => Kind::Table(source, call),
                }
            }
        })
    }

    fn answer(self, charset: u32, text: &[u8], question: &[u8]) -> Text {
        let n = fields::number(question);
        match self {
            Kind::Table(source, call) => source.answer(call, charset, text, question),
            Kind::Compile => replies::compile_text(compiled(PRESENT, charset, text, 0)),
            Kind::Column => replies::column_text(compiled(PRESENT, charset, text, n)),
            Kind::Left => left_answer(charset, text, n),
            Kind::Attributes => replies::compile_text(attributes::compile_attributes(text).answer),
            Kind::AttributesColumn => {
                replies::column_text(attributes::compile_attributes(text).answer)
            }
            Kind::Dots => dots_answer(text, (n % 256) as u8),
            Kind::Bytes => replies::column_text(compiled(BYTES, charset, text, 0)),
            Kind::Row => row_answer(charset, text, n as usize % 16),
            Kind::Edition => edition_answer(charset, text, question),
            Kind::Report => report_answer(fields::number(text), n),
        }
    }
}

// What compiling in an edition and a set answers, without the cells.
fn compile(edition: u32, charset: u32, text: &[u8], words: &mut [u32]) -> Result<usize, Rejection> {
    editions::compile(edition, charset, text, words).answer
}

// What compiling into a slice that lacks so many words answers.
fn compiled(edition: u32, charset: u32, text: &[u8], lacking: u32) -> Result<usize, Rejection> {
    let mut words = [0; TABLE_WORDS];
    let n = lacking as usize % (TABLE_WORDS + 1);
    compile(edition, charset, text, &mut words[n..])
}

fn page_answer(words: &[u32], question: &[u8]) -> Text {
    let Some(numbers) = Numbers::<18>::read(question) else {
        return Text::new();
    };
    replies::page_text(numbers.as_slice(), |page, cells, rules| {
        lookup::page(words, page, cells, rules)
    })
}

// A page as above, then two numbers a window behind a slash.
fn windows_answer(words: &[u32], question: &[u8]) -> Text {
    let (front, behind) = fields::split(question, b'/');
    let Some(numbers) = Numbers::<18>::read(front) else {
        return Text::new();
    };
    let Some(pairs) = Numbers::<12>::read(behind) else {
        return Text::new();
    };
    let windows = pairs.all.map(fields::window_number);
    let windows = &windows[..pairs.count];
    replies::page_text(numbers.as_slice(), |page, cells, rules| {
        windows::show_numbers(windows, words, page, cells, rules)
    })
}

// What compiling a listing in the set of the table answers, and whether it gives the words of the table back, in words
// that all held 7, and leaves those beyond and the bytes past it.
fn again_answer(words: &[u32], listing: &[u8], past: &[u8]) -> Text {
    if words.len() < TABLE_WORDS {
        return Text::new();
    }
    let mut back = [7; WORDS];
    let answer = compile(PRESENT, words[PAIR_WORDS], listing, &mut back);
    let front = replies::counted_text(listing.len(), answer);
    let (table, beyond) = back.split_at(TABLE_WORDS);
    let left = if table != &words[..TABLE_WORDS] {
        "words other"
    } else if !beyond.iter().all(|word| *word == 7) {
        "beyond other"
    } else {
        replies::past_text(past)
    };
    Text::of(format_args!("{front} {left}"))
}

// Listing into so many bytes, and compiling the listing.
fn back_answer(words: &[u32], length: u32) -> Text {
    let mut bytes = [UNWRITTEN; LISTING];
    let bytes = &mut bytes[..length as usize % (LISTING + 1)];
    let listed = listing::list_table(words, &mut *bytes);
    match listed {
        Err(_) => Text::of(format_args!(
            "{} {}",
            replies::listed_text(listed),
            replies::past_text(bytes)
        )),
        Ok(length) => match bytes.split_at_checked(length) {
            Some((listing, past)) => again_answer(words, listing, past),
            None => Text::new(),
        },
    }
}

// What compiling answers and leaves in so many words that all held 7.
fn left_answer(charset: u32, text: &[u8], length: u32) -> Text {
    let mut words = [7; WORDS];
    let words = &mut words[..length as usize % (WORDS + 1)];
    let answer = compile(PRESENT, charset, text, &mut *words);
    replies::left_text(replies::compile_text(answer), words)
}

// What compiling in an edition answers, what it leaves in words that all held 7, and whether it hands back cells. The
// question has the edition, and how many words are lent.
fn edition_answer(charset: u32, text: &[u8], question: &[u8]) -> Text {
    let mut numbers = [0; 2];
    fields::put_numbers(&mut numbers, question);
    let [edition, length] = numbers;
    let mut words = [7; WORDS];
    let words = &mut words[..length as usize % (WORDS + 1)];
    let done = editions::compile(edition, charset, text, &mut *words);
    let front = replies::left_text(replies::column_text(done.answer), words);
    let cells = if done.cells.iter().all(|cell| *cell == 255) {
        "255"
    } else {
        "other"
    };
    Text::of(format_args!("{front} cells {cells}"))
}

// The cells of 16 bytes of a byte table, by their high digit.
fn row_answer(charset: u32, text: &[u8], high: usize) -> Text {
    let done = editions::compile(BYTES, charset, text, &mut [0]);
    match done.cells.chunks_exact(16).nth(high) {
        Some(row) => Text::of(format_args!("row{}", Cells(row))),
        None => Text::new(),
    }
}

// The cell of an attribute byte.
fn dots_answer(text: &[u8], byte: u8) -> Text {
    let table = attributes::compile_attributes(text);
    let cell = attributes::attribute_cell(table.places, byte);
    Text::of(format_args!("{cell:02X}"))
}

// What the program writes of the refusal of a number; of the last one for any other number.
fn report_answer(number: u32, line: u32) -> Text {
    let refusal = REFUSALS
        .iter()
        .find(|refusal| u32::from(basics::number_of(**refusal)) == number)
        .copied()
        .unwrap_or(Refusal::WrongOrder);
    replies::compile_text(Err(Rejection {
        refusal,
        line: line as usize,
        column: 0,
    }))
}

// A case by its fields.
#[derive(Clone, Copy)]
pub struct Case<'a> {
    call: &'a [u8],
    text: &'a [u8],
    question: &'a [u8],
    pub expected: &'a [u8],
}

impl<'a> Case<'a> {
    // The fourth field, between marks `|`, which are the byte 124, is the answer that is expected.
    pub fn of(line: &'a [u8]) -> Case<'a>
        ensures { result.expected.now ≡ first_field 124 (behind_mark 124 (behind_mark 124 (behind_mark 124 line.now))) }
    {
        let (call, behind) = fields::split(line, b'|');
        let (text, behind) = fields::split(behind, b'|');
        let (question, behind) = fields::split(behind, b'|');
        let (expected, _) = fields::split(behind, b'|');
        Case {
            call,
            text,
            question,
            expected,
        }
    }

    // The answer to the case.
    pub fn answer(&self) -> Text {
        let (name, set) = fields::split(self.call, b' ');
        let charset = match set {
            [] => ISO_8859_1,
            digits => fields::number(digits),
        };
        // One byte more than a text may have.
        let mut text = [0; TEXT_LIMIT + 1];
        let n = fields::decode(self.text, &mut text);
        match Kind::named(name) {
            Some(kind) => kind.answer(charset, &text[..n], self.question),
            None => Text::of("unknown kind"),
        }
    }
}
