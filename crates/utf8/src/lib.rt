// Whether a line is UTF-8, and where it is not.
#![tactic(auto)]

ghost use Rattle.std.specs.Prelude.{◌≡◌, ◌≤◌, length};
ghost use Rattle.basics.specs.Internal.{bits_of};
ghost use Rattle.utf8.specs.Utf8.{after_first, after_further, after_byte, at_end, utf8};
ghost use Rattle.utf8.specs.Internal.{BadWithin, Resumed};

// Where the reading of a line as UTF-8 stands: between two characters; in a character that still wants `left` bytes,
// the next of them from `low` to `high`; or past a bad sequence. The position is where that sequence begins. It is no
// `Result`: a reading goes on over the bytes behind it and stays as it is.
#[derive(Clone, Copy)]
pub enum Utf8State {
    Between,
    Inside {
        left: u8,
        low: u8,
        high: u8,
        start: usize,
    },
    Broken(usize),
}

// A line that is no UTF-8: where its first bad sequence begins.
#[derive(Clone, Copy)]
pub struct BadSequence {
    pub start: usize,
}

// After the first byte `b` of a character, which stands at `start`.
#[tactic(auto, using(basics::proofs::Tests::tests), unfolding(crate::specs::Utf8::after_first))]
fn after_first(b: u8, start: usize) -> Utf8State
    ensures { result ≡ after_first b start }
{
    let (left, low, high) = match b {
        0x00..=0x7F => return Utf8State::Between,
        0xC2..=0xDF => (1, 0x80, 0xBF),
        0xE0 => (2, 0xA0, 0xBF),
        0xED => (2, 0x80, 0x9F),
        0xE1..=0xEF => (2, 0x80, 0xBF),
        0xF0 => (3, 0x90, 0xBF),
        0xF1..=0xF3 => (3, 0x80, 0xBF),
        0xF4 => (3, 0x80, 0x8F),
        _ => return Utf8State::Broken(start),
    };
    Utf8State::Inside {
        left,
        low,
        high,
        start,
    }
}

// After a further byte `b` of a character.
#[tactic(auto, using(basics::proofs::Tests::tests), unfolding(crate::specs::Utf8::after_further))]
fn after_further(left: u8, low: u8, high: u8, start: usize, b: u8) -> Utf8State
    ensures { result ≡ after_further left low high start b }
{
    if b < low || high < b {
        return Utf8State::Broken(start);
    }
    if left <= 1 {
        return Utf8State::Between;
    }
    Utf8State::Inside {
        left: left - 1,
        low: 0x80,
        high: 0xBF,
        start,
    }
}

// After the byte `b` at `i`.
fn after_byte(p: Utf8State, b: u8, i: usize) -> Utf8State
    ensures { result ≡ after_byte p b i }
{
    match p {
        Utf8State::Between => after_first(b, i),
        Utf8State::Inside {
            left,
            low,
            high,
            start,
        } => after_further(left, low, high, start, b),
        Utf8State::Broken(start) => Utf8State::Broken(start),
    }
}

// At the line's end, where a cut sequence is bad too.
fn at_end(p: Utf8State) -> Result<(), BadSequence>
    ensures { result ≡ at_end p }
{
    match p {
        Utf8State::Between => Ok(()),
        Utf8State::Inside { start, .. } | Utf8State::Broken(start) => Err(BadSequence { start }),
    }
}

// Where the run of ASCII bytes from `from` on ends: at the first other byte, or at the line's end.
fn after_ascii(line: &[u8], from: usize) -> usize
    requires { from ≤ length line.now }
    ensures { Resumed line.now from Utf8State.Between result }
{
    let rest = &line[from..];
    from + rest.iter().position(|b| 0x80 <= *b).unwrap_or(rest.len())
}

// Where the reading goes on that stands at `at`: between two characters, behind the ASCII bytes, which need no state.
fn resume(line: &[u8], at: usize, p: Utf8State) -> usize
    requires { at ≤ length line.now }
    ensures { Resumed line.now at p result }
{
    match p {
        Utf8State::Between => after_ascii(line, at),
        Utf8State::Inside { .. } | Utf8State::Broken(_) => at,
    }
}

// The bits that the bytes of a line have between them, below 0x80 if all are ASCII. It goes to the line's end at once,
// so that it is compiled to take several bytes at a time.
#[tactic(auto, using(basics::proofs::Bits::bits_fold))]
fn bits_of(line: &[u8]) -> u8
    ensures { result ≡ bits_of line.now }
{
    line.iter().fold(0, |bits, b| bits | *b)
}

// Whether all of `line` is UTF-8; if not, where the first bad sequence begins.
#[tactic(auto, using(crate::proofs::Utf8::checked), unfolding(crate::specs::Utf8::utf8_from))]
pub fn check_utf8(line: &[u8]) -> Result<(), BadSequence>
    ensures value { result ≡ utf8 line.now }
    ensures bad_within { BadWithin result (length line.now) }
{
    if bits_of(line) < 0x80 {
        return Ok(());
    }
    let mut p = Utf8State::Between;
    let mut i = after_ascii(line, 0);

    // No `for`: the position jumps over each run of ASCII bytes, which is faster than a byte at a time.
    while i < line.len() {
        p = after_byte(p, line[i], i);
        i = resume(line, i + 1, p);
    }
    at_end(p)
}
