// The lines of a text, the words of a line, the column of a fault, and what every compile call answers.
#![tactic(auto)]

ghost use Rattle.std.specs.Prelude.{◌≡◌, ◌≤◌, length};
ghost use Rattle.lines.specs.Lines.{lines_of, without_cr};
ghost use Rattle.lines.specs.Words.{is_blank, same_bytes, is_over};
ghost use Rattle.lines.specs.Texts.{opening_of, column_of, rejection_of};
ghost use Rattle.lines.specs.Internal.{LineEnd, NextWord, lines_left};
ghost use Rattle.std.specs.Iterator.{YieldsFirstRef, item_count};

use basics::Refusal;

// How many bytes a text may have, and a line without its end.
pub const TEXT_LIMIT: usize = 65536;

const LINE_LIMIT: usize = 1024;

// A word of a line: the position of its first byte and the one after its last; equal where there is no word. It is no
// `Option`: the place of a word that is missing, the line's end, is told too.
#[derive(Clone, Copy)]
pub struct Word {
    pub start: usize,
    pub end: usize,
}

// A fault of a line: why, and how many bytes before the line's end.
#[derive(Clone, Copy)]
pub struct LineFault {
    pub refusal: Refusal,
    pub left: usize,
}

// What a line that has no fault is before its words are read: nothing to read, or a directive.
#[derive(Clone, Copy)]
pub enum Opening {
    Skip,
    Directive,
}

// What was read of a line, and the position after it.
#[derive(Clone, Copy)]
pub struct Parsed<T> {
    pub value: T,
    pub after: usize,
}

// Why a compile call refuses a text, with the line and its column there, 0 where it has none.
#[derive(Clone, Copy)]
pub struct Rejection {
    pub refusal: Refusal,
    pub line: usize,
    pub column: usize,
}

impl From<Refusal> for Rejection {
    ghost from_gives = { λ refusal rejection. rejection ≡ record { refusal = refusal; line = 0; column = 0 } };

    // A refusal that is of no line.
    fn from(refusal: Refusal) -> Rejection {
        Rejection {
            refusal,
            line: 0,
            column: 0,
        }
    }
}

impl LineFault {
    // The fault by its place in the text, where `here` is the line with that number, with its CR if it has one.
    pub fn in_line(self, here: &[u8], line: usize) -> Rejection
        ensures { result ≡ rejection_of self here.now line }
    {
        Rejection {
            refusal: self.refusal,
            line,
            column: column_of(here, self.left),
        }
    }
}

// The lines of a text, without their LF: an iterator over what is left of it.
#[derive(Drop)]
pub struct TextLines<'a> {
    rest: &'a [u8],
}

impl<'a> Iterator for TextLines<'a> {
    type Item = &'a [u8];

    ghost next_gives = { YieldsFirstRef lines_left };

    ghost remaining = { item_count lines_left };

    fn next(&mut self) -> Option<&'a [u8]> {
        let rest = self.rest;
        if rest.is_empty() {
            return None;
        }
        let end = line_end(rest, 0);
        // Behind it stands its LF, unless it is the last and has none.
        self.rest = &rest[(end + 1).min(rest.len())..];
        Some(&rest[..end])
    }
}

// The lines of a text, to be walked by a `for`.
pub fn lines_of(text: &[u8]) -> TextLines<'_>
    ensures { lines_left result ≡ lines_of text.now }
{
    TextLines { rest: text }
}

// Where the line that begins at `at` ends: at its LF, or at the end of the text.
pub fn line_end(text: &[u8], at: usize) -> usize
    requires { at ≤ length text.now }
    ensures { LineEnd text.now at result }
{
    let rest = &text[at..];
    at + rest.iter().position(|b| *b == b'\n').unwrap_or(rest.len())
}

// A line without its one CR, if it ends in it.
#[tactic(auto, using(crate::proofs::Lines::cr_cases))]
pub fn without_cr(line: &[u8]) -> &[u8]
    ensures { result.now ≡ without_cr line.now }
{
    match line {
        [front @ .., b'\r'] => front,
        _ => line,
    }
}

// The column of a place `left` bytes before the end of a line, whose one CR is not counted.
pub fn column_of(line: &[u8], left: usize) -> usize
    ensures { result ≡ column_of (without_cr line.now) left }
{
    without_cr(line).len().saturating_sub(left) + 1
}

// Whether a byte is whitespace.
#[tactic(auto, using(basics::proofs::Tests::tests), unfolding(crate::specs::Words::is_blank))]
pub fn is_blank(b: u8) -> bool
    ensures { result ≡ is_blank b }
{
    b == b' ' || b == b'\t'
}

// The next word from `at` on: empty, at the line's end, where there is none. A line and a place in it are passed on by
// themselves: the place is another at each call, so a struct of both would be made anew before each.
pub fn next_word(line: &[u8], at: usize) -> Word
    requires { at ≤ length line.now }
    ensures { NextWord line.now at result }
{
    let rest = &line[at..];
    let before = rest
        .iter()
        .position(|b| !is_blank(*b))
        .unwrap_or(rest.len());
    let start = at + before;
    let word = &line[start..];
    let count = word.iter().position(|b| is_blank(*b)).unwrap_or(word.len());
    let end = start + count;
    Word { start, end }
}

// Whether two slices hold the same bytes. Readers ask it of each word of the language, as the definitions do: a `match`
// on byte strings asks for a proof for each byte that may differ, and `==` for `.as_slice()` behind each word.
#[tactic(auto, using(crate::proofs::Words::same_lem))]
pub fn same_bytes(a: &[u8], b: &[u8]) -> bool
    ensures { result ≡ same_bytes a.now b.now }
{
    a == b
}

// Whether nothing, or a word that begins with `#`, stands from `at` on.
#[tactic(auto, using(crate::proofs::Openings::over_at_lem, basics::proofs::Tests::tests))]
pub fn is_over(line: &[u8], at: usize) -> bool
    requires { at ≤ length line.now }
    ensures { result ≡ is_over line.now at }
{
    let w = next_word(line, at);
    w.start == w.end || line[w.start] == b'#'
}

// What a line, without its end, is before its words are read.
#[tactic(auto, using(crate::proofs::Openings::opening_cases), unfolding(crate::specs::Texts::opening_of))]
pub fn open_line(line: &[u8]) -> Result<Opening, LineFault>
    ensures { result ≡ opening_of line.now }
{
    let n = line.len();
    if LINE_LIMIT < n {
        return Err(LineFault {
            refusal: Refusal::LineTooLong,
            left: n - LINE_LIMIT,
        });
    }
    if let Err(bad) = utf8::check_utf8(line) {
        return Err(LineFault {
            refusal: Refusal::NotUtf8,
            left: n - bad.start,
        });
    }
    if is_over(line, 0) {
        return Ok(Opening::Skip);
    }
    Ok(Opening::Directive)
}
