// Dots from the position of their first byte on: a cell, bare or in parentheses. A line and a place in it are passed on
// by themselves, as `lines::next_word` says.
#![tactic(auto)]

ghost use Rattle.std.specs.Prelude.{◌≡◌, ◌≤◌, ◌<◌, length, drop};
ghost use Rattle.dots.specs.Dots.{raise, raise_inside, ends_at, digits_at, inside_at, cell_at, dots_at};
ghost use Rattle.dots.specs.Internal.{CellWithin};

use lines::{Parsed, is_blank};

// The cell with the dot of the digit `b` raised, or none where that dot is up already or `b` is no such digit.
#[tactic(auto, using(crate::proofs::Cells::raised))]
fn raise(cell: u8, b: u8) -> Option<u8>
    ensures { result ≡ raise cell b }
{
    match b {
        b'1'..=b'8' => {
            let weight = 1 << (b - b'1');
            if cell / weight % 2 == 0 {
                Some(cell + weight)
            } else {
                None
            }
        }
        _ => None,
    }
}

// The cell after one byte in parentheses.
#[tactic(auto, using(basics::proofs::Tests::chosen), unfolding(crate::specs::Dots::raise_inside))]
fn raise_inside(cell: u8, b: u8) -> Option<u8>
    ensures { result ≡ raise_inside cell b }
{
    if is_blank(b) {
        Some(cell)
    } else {
        raise(cell, b)
    }
}

// The operand ends at `i`, where whitespace or the line's end has to be.
#[tactic(auto, using(crate::proofs::Cells::ends_by))]
fn ends_at(line: &[u8], i: usize, cell: u8) -> Option<Parsed<u8>>
    requires { i ≤ length line.now }
    ensures value { result ≡ ends_at (drop i line.now) i cell }
    ensures cell_within { CellWithin result (length line.now) }
{
    if i < line.len() && !is_blank(line[i]) {
        return None;
    }
    Some(Parsed {
        value: cell,
        after: i,
    })
}

// Digits from `at` on, to whitespace or the line's end.
#[tactic(auto, using(crate::proofs::Cells::digits_by))]
fn digits_at(line: &[u8], at: usize) -> Option<Parsed<u8>>
    requires { at ≤ length line.now }
    ensures value { result ≡ digits_at (drop at line.now) at 0 }
    ensures cell_within { CellWithin result (length line.now) }
{
    let mut cell = 0;
    for i in at..line.len() {
        if is_blank(line[i]) {
            return Some(Parsed {
                value: cell,
                after: i,
            });
        }
        cell = raise(cell, line[i])?;
    }
    Some(Parsed {
        value: cell,
        after: line.len(),
    })
}

// Digits and whitespace from `at` on, to the closing parenthesis. Beside `digits_at` by itself: what a blank does and
// where the dots end are not the same.
#[tactic(auto, using(crate::proofs::Cells::inside_by))]
fn inside_at(line: &[u8], at: usize) -> Option<Parsed<u8>>
    requires { at ≤ length line.now }
    ensures value { result ≡ inside_at (drop at line.now) at 0 }
    ensures cell_within { CellWithin result (length line.now) }
{
    let mut cell = 0;
    for i in at..line.len() {
        if line[i] == b')' {
            return ends_at(line, i + 1, cell);
        }
        cell = raise_inside(cell, line[i])?;
    }
    None
}

// A cell whose first byte stands at `at`: `0`, or digits.
#[tactic(auto, using(basics::proofs::Tests::tests), unfolding(crate::specs::Dots::cell_at))]
pub fn cell_at(line: &[u8], at: usize) -> Option<Parsed<u8>>
    requires { at < length line.now }
    ensures value { result ≡ cell_at line.now at }
    ensures cell_within { CellWithin result (length line.now) }
{
    if line[at] == b'0' {
        return ends_at(line, at + 1, 0);
    }
    digits_at(line, at)
}

// Dots whose first byte stands at `at`: a cell, or digits in parentheses.
#[tactic(auto, using(basics::proofs::Tests::tests), unfolding(crate::specs::Dots::dots_at))]
pub fn dots_at(line: &[u8], at: usize) -> Option<Parsed<u8>>
    requires { at < length line.now }
    ensures value { result ≡ dots_at line.now at }
    ensures cell_within { CellWithin result (length line.now) }
{
    if line[at] == b'(' {
        return inside_at(line, at + 1);
    }
    cell_at(line, at)
}
