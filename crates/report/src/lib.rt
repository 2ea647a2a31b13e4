// The line that the program writes for a text table.
#![tactic(auto)]

ghost use Rattle.std.specs.Prelude.{◌≡◌, ℕ, List, [], ◌++◌, ◌+◌, ◌≤◌, length, take};
ghost use Rattle.lines.specs.Texts.{compiled_reply};
ghost use Rattle.report.specs.Report.{Held, decimal, report_of, line_of};

use lines::Rejection;
use std::marker::Model;

// A line in fixed memory, since there is no heap: the first `length` of the bytes.
#[derive(Clone, Copy)]
pub struct Line {
    bytes: [u8; 64],
    length: usize,
}

impl Model for Line {
    ghost Value = { Held };

    ghost view = { λ l. record { bytes = l.bytes; length = l.length } };

    ghost inverse = { λ l. record { bytes = l.bytes; length = l.length } };

    ghost invariant = { λ l. l.length ≤ 64 };
}

impl Line {
    fn new() -> Line
        ensures { result ≡ line_of [] }
    {
        Line {
            bytes: [0u8; 64],
            length: 0,
        }
    }

    // Puts a text behind that of the line.
    fn push_bytes(&mut self, more: &[u8])
        requires { self.old.length + length more.now ≤ 64 }
        ensures grown { (text : List ℕ) → self.old ≡ line_of text → self.new ≡ line_of (text ++ more.now) }
        ensures longer { self.new.length ≡ self.old.length + length more.now }
    {
        let end = self.length + more.len();
        self.bytes[self.length..end].copy_from_slice(more);
        self.length = end;
    }

    // Puts a number behind the text of the line, in decimal.
    #[tactic(auto, using(crate::proofs::Lines::digits_few, crate::proofs::Lines::digits_decimal))]
    fn push_decimal(&mut self, n: u64)
        requires { self.old.length + 20 ≤ 64 }
        ensures grown { (text : List ℕ) → self.old ≡ line_of text → self.new ≡ line_of (text ++ decimal n) }
        ensures length_bound { self.new.length ≤ self.old.length + 20 }
    {
        let mut digits = [0u8; 20];
        let k = io::decimal(n, &mut digits);
        self.push_bytes(&digits[..k]);
    }

    pub fn as_bytes(&self) -> &[u8]
        ensures { result.now ≡ take self.now.length self.now.bytes }
    {
        &self.bytes[..self.length]
    }
}

// The line of an answer of the compile call, with zeros behind it.
pub fn report(answer: Result<usize, Rejection>) -> Line
    ensures value { result ≡ line_of (report_of (compiled_reply answer)) }
    ensures length_bound { result.length ≤ 64 }
{
    let mut text = Line::new();
    match answer {
        Ok(count) => {
            text.push_bytes(b"accepted ");
            // `as`, here and below: Rust has no `From` from `usize` to `u64`. Nothing is narrowed.
            text.push_decimal(count as u64);
        }
        Err(rejection) => {
            text.push_bytes(b"refused ");
            text.push_decimal(u64::from(basics::number_of(rejection.refusal)));
            text.push_bytes(b" line ");
            text.push_decimal(rejection.line as u64);
        }
    }
    text.push_bytes(b"\n");
    text
}
