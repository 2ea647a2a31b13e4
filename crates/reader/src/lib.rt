// Reading a line of a text table: directives, conditions, operands. The pairs are the definitions of the lines before,
// and their words say the local character set. A line and a place in it are passed on by themselves, as
// `lines::next_word` says.
#![tactic(auto)]

ghost use Rattle.std.specs.Prelude.{◌≡◌, ◌≤◌, length, Ok};
ghost use Rattle.lines.specs.Internal.{NextWord};
ghost use Rattle.pairs.specs.Words.{charset_of};
ghost use Rattle.table.specs.Internal.{known};
ghost use Rattle.reader.specs.Conditions.{has_glyph, has_cell};
ghost use Rattle.reader.specs.Reader.{condition_of, directive_of, finished, dots_meaning, dots_line, alias_line};
ghost use Rattle.reader.specs.Reader.{condition_at, glyph_condition, cell_condition, has_room, after_directive};
ghost use Rattle.reader.specs.Reader.{front_of, if_holds, read_from, block_line, read_first, read_line};
ghost use Rattle.reader.specs.Internal.{FrontWithin};

use basics::Refusal;
use blocks::{Around, BlockLine};
use characters::OperandKind;
use definitions::{Definition, Meaning};
use lines::{LineFault, Opening, Word};
use pairs::Pairs;

// What a directive word asks for: a definition by dots, of a byte or a character, typed or shown only; an alias; or a
// condition, which holds where its test comes out as wanted. `typed` and `wanted` are values of the word: the one says
// which meaning is defined, the other is compared. They pick no step.
#[derive(Clone, Copy)]
pub enum Directive {
    ByDots { kind: OperandKind, typed: bool },
    ByAlias,
    IfGlyph { wanted: bool },
    IfCell { wanted: bool },
}

// A line as read, without a fault: without effect, a definition that is to take effect, with the number of bytes from
// its directive word to the line's end, or a line that opens, turns or closes a block.
#[derive(Clone, Copy)]
pub enum Reading {
    NoEffect,
    Define(Definition, usize),
    Block(BlockLine),
}

// A directive at the front of what is left of a line: read whole, or a condition, whether it holds and where the
// further directive begins. Neither is a fault, so this is no `Result`.
#[derive(Clone, Copy)]
pub enum Front {
    Whole(Reading),
    Condition { holds: bool, rest: usize },
}

// What a line is read with: the definitions of the lines before, and the local character set.
#[derive(Clone, Copy)]
struct Context<'a> {
    pairs: Pairs<'a>,
    charset: u32,
}

impl Context<'_> {
    // Whether `ifGlyph` holds: the end of the alias walk has a cell exactly where rule 3 or 4 answers.
    #[tactic(auto, using(crate::proofs::Conditions::glyph_never, crate::proofs::Conditions::glyph_end))]
    fn has_glyph(&self, c: u32) -> bool
        ensures { result ≡ has_glyph self.now.charset (known self.now.pairs) c }
    {
        if scalars::is_braille(c) {
            return false;
        }
        let walk = pairs::walk_from(&self.pairs, scalars::local_of(self.charset, c));
        walk.cell.is_some()
    }

    // Whether `ifCell` holds.
    fn has_cell(&self, cell: u8) -> bool
        ensures { result ≡ has_cell (known self.now.pairs) cell }
    {
        for row in self.pairs.rows() {
            if definitions::types_cell(pairs::meaning_of(row[1]), cell) {
                return true;
            }
        }
        false
    }

    // `char`, `glyph` and `byte` from behind the directive word on.
    #[tactic(auto, unfolding(crate::specs::Reader::dots_line))]
    fn dots_line(
        &self,
        line: &[u8],
        at: usize,
        kind: OperandKind,
        typed: bool,
        left: usize,
    ) -> Result<Reading, LineFault>
        requires { at ≤ length line.now }
        ensures { result ≡ dots_line self.now.charset kind typed line.now at left }
    {
        let operand = operands::character_at(self.charset, line, at, kind)?;
        let dots = operands::dots_operand_at(line, operand.after)?;
        let character = operand.value;
        let meaning = dots_meaning(typed, dots.value);
        finish(
            line,
            dots.after,
            Reading::Define(Definition { character, meaning }, left),
        )
    }

    // `alias` from behind the directive word on.
    #[tactic(auto, unfolding(crate::specs::Reader::alias_line))]
    fn alias_line(&self, line: &[u8], at: usize, left: usize) -> Result<Reading, LineFault>
        requires { at ≤ length line.now }
        ensures { result ≡ alias_line self.now.charset line.now at left }
    {
        let operand = operands::character_at(self.charset, line, at, OperandKind::Character)?;
        let target = operands::character_at(
            self.charset,
            line,
            operand.after,
            OperandKind::Character,
        )?;
        let character = operand.value;
        let meaning = Meaning::Alias(target.value);
        finish(
            line,
            target.after,
            Reading::Define(Definition { character, meaning }, left),
        )
    }

    // `ifGlyph` and `ifNotGlyph` from behind the directive word on.
    #[tactic(auto, unfolding(crate::specs::Reader::glyph_condition))]
    fn glyph_condition(&self, line: &[u8], at: usize, wanted: bool) -> Result<Front, LineFault>
        requires { at ≤ length line.now }
        ensures value { result ≡ glyph_condition self.now.charset (known self.now.pairs) wanted line.now at }
        ensures front_within { FrontWithin result 1 (length line.now) }
    {
        let operand = operands::character_at(self.charset, line, at, OperandKind::Character)?;
        Ok(condition_at(line, operand.after, self.has_glyph(operand.value) == wanted))
    }

    // `ifCell` and `ifNotCell` from behind the directive word on, with an operand and a test of their own.
    #[tactic(auto, unfolding(crate::specs::Reader::cell_condition))]
    fn cell_condition(&self, line: &[u8], at: usize, wanted: bool) -> Result<Front, LineFault>
        requires { at ≤ length line.now }
        ensures value { result ≡ cell_condition (known self.now.pairs) wanted line.now at }
        ensures front_within { FrontWithin result 1 (length line.now) }
    {
        let operand = operands::cell_operand_at(line, at)?;
        Ok(condition_at(line, operand.after, self.has_cell(operand.value) == wanted))
    }

    // What stands behind a directive word, with room for so many conditions; the word begins `left` bytes before the
    // line's end.
    #[tactic(auto, using(crate::proofs::Reader::front_room))]
    fn after_directive(
        &self,
        line: &[u8],
        room: usize,
        directive: Directive,
        at: usize,
        left: usize,
    ) -> Result<Front, LineFault>
        requires { at ≤ length line.now }
        ensures value { result
            ≡ after_directive self.now.charset (known self.now.pairs) room line.now directive at left }
        ensures front_within { FrontWithin result room (length line.now) }
    {
        match directive {
            Directive::ByDots { kind, typed } => Ok(Front::Whole(self.dots_line(
                line, at, kind, typed, left,
            )?)),
            Directive::ByAlias => Ok(Front::Whole(self.alias_line(line, at, left)?)),
            Directive::IfGlyph { wanted } => {
                has_room(room, left)?;
                self.glyph_condition(line, at, wanted)
            }
            Directive::IfCell { wanted } => {
                has_room(room, left)?;
                self.cell_condition(line, at, wanted)
            }
        }
    }

    // The directive at the front of what is left of a line, whose first word is `w`.
    #[tactic(auto, using(crate::proofs::Reader::front_read))]
    fn front_of(&self, line: &[u8], w: Word, room: usize) -> Result<Front, LineFault>
        requires { NextWord line.now 0 w }
        ensures value { result ≡ front_of self.now.charset (known self.now.pairs) room line.now }
        ensures front_within { FrontWithin result room (length line.now) }
    {
        let left = line.len() - w.start;
        match directive_of(&line[w.start..w.end]) {
            None => Err(LineFault {
                refusal: Refusal::UnknownDirective,
                left,
            }),
            Some(directive) => self.after_directive(line, room, directive, w.end, left),
        }
    }

    // A directive, with room for so many conditions, whose word is `w`: it calls itself on the rest of the line.
    fn read_from(&self, line: &[u8], w: Word, room: usize) -> Result<Reading, LineFault>
        requires { NextWord line.now 0 w }
        ensures { result ≡ read_from self.now.charset (known self.now.pairs) room line.now }
    {
        match self.front_of(line, w, room)? {
            Front::Whole(reading) => Ok(reading),
            Front::Condition { holds, rest } => {
                let next = lines::next_word(&line[rest..], 0);
                let reading = self.read_from(&line[rest..], next, room - 1)?;
                Ok(if_holds(holds, reading))
            }
        }
    }

    // A line that is no comment.
    #[tactic(auto, using(crate::proofs::Reader::first))]
    fn read_first(&self, around: Around, line: &[u8]) -> Result<Reading, LineFault>
        ensures { result ≡ read_first self.now.charset (known self.now.pairs) around line.now }
    {
        let w = lines::next_word(line, 0);
        let left = line.len() - w.start;
        if lines::same_bytes(&line[w.start..w.end], b"else") {
            return block_line(line, w.end, left, around.turns, BlockLine::Else);
        }
        if lines::same_bytes(&line[w.start..w.end], b"endIf") {
            return block_line(line, w.end, left, around.closes, BlockLine::EndIf);
        }
        let reading = self.read_from(line, w, around.room)?;
        Ok(if_holds(around.taken, reading))
    }
}

// The directive that a word of a condition asks for.
#[tactic(auto, using(basics::proofs::Tests::chosen), unfolding(crate::specs::Reader::condition_of))]
fn condition_of(w: &[u8]) -> Option<Directive>
    ensures { result ≡ condition_of w.now }
{
    if lines::same_bytes(w, b"ifGlyph") {
        return Some(Directive::IfGlyph { wanted: true });
    }
    if lines::same_bytes(w, b"ifNotGlyph") {
        return Some(Directive::IfGlyph { wanted: false });
    }
    if lines::same_bytes(w, b"ifCell") {
        return Some(Directive::IfCell { wanted: true });
    }
    if lines::same_bytes(w, b"ifNotCell") {
        return Some(Directive::IfCell { wanted: false });
    }
    None
}

// The directive that a word asks for.
#[tactic(auto, using(basics::proofs::Tests::chosen), unfolding(crate::specs::Reader::directive_of))]
fn directive_of(w: &[u8]) -> Option<Directive>
    ensures { result ≡ directive_of w.now }
{
    if lines::same_bytes(w, b"char") {
        return Some(Directive::ByDots {
            kind: OperandKind::Character,
            typed: true,
        });
    }
    if lines::same_bytes(w, b"glyph") {
        return Some(Directive::ByDots {
            kind: OperandKind::Character,
            typed: false,
        });
    }
    if lines::same_bytes(w, b"byte") {
        return Some(Directive::ByDots {
            kind: OperandKind::Byte,
            typed: false,
        });
    }
    if lines::same_bytes(w, b"alias") {
        return Some(Directive::ByAlias);
    }
    condition_of(w)
}

// `reading`, or the fault of text behind the last operand.
#[tactic(auto, unfolding(crate::specs::Reader::finished))]
fn finish(line: &[u8], at: usize, reading: Reading) -> Result<Reading, LineFault>
    requires { at ≤ length line.now }
    ensures { result ≡ finished line.now at reading }
{
    operands::ended(line, at)?;
    Ok(reading)
}

fn dots_meaning(typed: bool, dots: u8) -> Meaning
    ensures { result ≡ dots_meaning typed dots }
{
    if typed {
        Meaning::Typed(dots)
    } else {
        Meaning::Shown(dots)
    }
}

// Behind a condition's operand: a further directive, or a block opens.
#[tactic(auto, using(basics::proofs::Tests::chosen), unfolding(crate::specs::Reader::condition_at))]
fn condition_at(line: &[u8], after: usize, holds: bool) -> Front
    requires { after ≤ length line.now }
    ensures value { result ≡ condition_at line.now after holds }
    ensures front_within { FrontWithin (Ok result) 1 (length line.now) }
{
    if lines::is_over(line, after) {
        return Front::Whole(Reading::Block(BlockLine::Open {
            first: holds,
            second: !holds,
        }));
    }
    Front::Condition { holds, rest: after }
}

// Whether there is room for a condition whose word begins `left` bytes before the line's end.
#[tactic(auto, using(basics::proofs::Tests::tests))]
fn has_room(room: usize, left: usize) -> Result<(), LineFault>
    ensures { result ≡ has_room room left }
{
    if room == 0 {
        return Err(LineFault {
            refusal: Refusal::TooManyConditions,
            left,
        });
    }
    Ok(())
}

// Behind a failed condition, or inside lines not taken, only a block that opens counts, beside a fault.
#[tactic(auto, using(crate::proofs::Reader::unmet), unfolding(crate::specs::Reader::if_holds))]
fn if_holds(holds: bool, reading: Reading) -> Reading
    ensures { result ≡ if_holds holds reading }
{
    if holds {
        return reading;
    }
    match reading {
        Reading::NoEffect | Reading::Define(_, _) => Reading::NoEffect,
        Reading::Block(line) => Reading::Block(line.inert()),
    }
}

// `else` or `endIf` from behind its word on, which begins `left` bytes before the line's end. `may` is what the blocks
// around answer for this word.
#[tactic(auto, unfolding(crate::specs::Reader::block_line))]
fn block_line(
    line: &[u8],
    at: usize,
    left: usize,
    may: bool,
    read: BlockLine,
) -> Result<Reading, LineFault>
    requires { at ≤ length line.now }
    ensures { result ≡ block_line may read line.now at left }
{
    if may {
        return finish(line, at, Reading::Block(read));
    }
    Err(LineFault {
        refusal: Refusal::StrayBlockWord,
        left,
    })
}

// A whole line, without its end.
#[tactic(auto, using(lines::proofs::Openings::on_opening), unfolding(crate::specs::Reader::read_line))]
pub fn read_line(pairs: Pairs<'_>, around: Around, line: &[u8]) -> Result<Reading, LineFault>
    ensures { result ≡ read_line (charset_of pairs.entry.words.now) (known pairs.entry) around line.now }
{
    match lines::open_line(line)? {
        Opening::Skip => Ok(Reading::NoEffect),
        Opening::Directive => {
            let charset = table::charset_of(pairs.words);
            Context { pairs, charset }.read_first(around, line)
        }
    }
}
