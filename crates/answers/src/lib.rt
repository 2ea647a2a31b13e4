// The text of an answer, in fixed memory. What goes beyond 256 bytes is left out, so that no caller has to show room.
#![tactic(auto)]

ghost use Rattle.std.specs.Prelude.{◌≡◌, ◌≤◌, [], ◌∷◌, ◌++◌, take, flat_map, encode_utf8, Some};

use std::fmt;
use std::fmt::{Display, Write};

// The first `length` of the bytes.
#[derive(Clone, Copy)]
pub struct Text {
    bytes: [u8; 256],
    length: usize,
    ghost within: { length ≤ 256 },
}

impl Text {
    ghost use Rattle.answers.specs.Texts.{bytes_of};

    pub fn new() -> Text
        ensures { bytes_of result ≡ [] }
    {
        Text {
            bytes: [0; 256],
            length: 0,
        }
    }

    // What a value prints. A value may refuse to be printed halfway, so no clause says what the text holds.
    pub fn of<D: Display + Drop>(value: D) -> Text {
        let mut text = Text::new();
        let _ = text.write(value);
        text
    }

    pub fn push(&mut self, byte: u8)
        ensures { bytes_of self.new ≡ take 256 (bytes_of self.old ++ byte ∷ []) }
    {
        self.push_bytes(&[byte]);
    }

    #[tactic(auto, using(crate::proofs::Texts::text_more))]
    pub fn push_bytes(&mut self, more: &[u8])
        ensures { bytes_of self.new ≡ take 256 (bytes_of self.old ++ more.now) }
    {
        let room = self.bytes.len() - self.length;
        let count = more.len().min(room);
        let end = self.length + count;
        self.bytes[self.length..end].copy_from_slice(&more[..count]);
        self.length = end;
    }

    pub fn as_bytes(&self) -> &[u8]
        ensures { result.now ≡ bytes_of self.now }
    {
        &self.bytes[..self.length]
    }
}

impl Write for Text {
    ghost use Rattle.answers.specs.Texts.{bytes_of};

    ghost write_str_gives = { λ old bytes new. bytes_of new ≡ take 256 (bytes_of old ++ bytes) };

    fn write_str(&mut self, s: &str) -> fmt::Result {
        self.push_bytes(s.as_bytes());
        Ok(())
    }
}

// A text is printed byte by byte, as ASCII.
impl Display for Text {
    ghost use Rattle.answers.specs.Texts.{bytes_of};

    ghost output = { λ text. Some (flat_map encode_utf8 (bytes_of text)) };

    fn fmt<W: Write>(&self, f: &mut fmt::Formatter<W>) -> fmt::Result {
        for byte in self.as_bytes() {
            f.write_char(char::from(*byte))?;
        }
        Ok(())
    }
}

// The bytes of a buffer, each as two digits in hex behind a blank.
#[derive(Clone, Copy)]
pub struct Cells<'a>(pub &'a [u8]);

impl Display for Cells<'_> {
    fn fmt<W: Write>(&self, f: &mut fmt::Formatter<W>) -> fmt::Result {
        for cell in self.0 {
            write!(f, " {cell:02X}")?;
        }
        Ok(())
    }
}
