// Byte tables, edition 1 of text tables: from each of the 256 bytes to its cell. A local character set is a number, as
// in `scalars`: callers name any.
#![tactic(auto)]

ghost use Rattle.std.specs.Prelude.{◌≡◌, ◌+◌, ◌≤◌, ◌<◌, length, IfOk};
ghost use Rattle.byte_tables.specs.Reader.{is_byte_form, form_byte, byte_at, byte_line, table_line, read_table_line};
ghost use Rattle.byte_tables.specs.Compile.{compiled_bytes, bytes_reply, begun, step};
ghost use Rattle.byte_tables.specs.Compile.{shown_by, cells_from, no_cells, outcome_cells};
ghost use Rattle.byte_tables.specs.Internal.{LineWithin, left_by};
ghost use Rattle.attributes.specs.Internal.{text_gives};
ghost use Rattle.lines.specs.Internal.{step_of};
ghost use Rattle.lines.specs.Lines.{without_cr};
ghost use Rattle.lines.specs.Texts.{text_limit, outcome_column, compiled_reply, compiled_column};

use attributes::{DotLine, DotStates, State, States};
use basics::Refusal;
use lines::{LineFault, Opening, Parsed, Rejection, TEXT_LIMIT};

// A line as read: nothing, a dot with its state, or a byte with its cell, whose first word begins `left` bytes before
// the line's end.
#[derive(Clone, Copy)]
pub enum TableLine {
    Skip,
    Dot(DotLine),
    Byte { byte: u8, cell: u8, left: usize },
}

// What the lines so far leave: the cell of each byte that has a line, the states of the dots, and how many byte lines
// there were.
#[derive(Clone, Copy)]
pub struct SoFar {
    pub slots: [Option<u8>; 256],
    pub dots: DotStates,
    pub count: usize,
}

// What compiling answers, with the count of byte lines, and the cells of the 256 bytes, all 255 where there are none.
// The cells stand beside the answer, since a refusal hands them too.
#[derive(Clone, Copy)]
pub struct Compilation {
    pub answer: Result<usize, Rejection>,
    pub cells: [u8; 256],
}

// Whether a word is no escape, or one that a byte operand may be.
#[tactic(auto, using(basics::proofs::Tests::tests))]
fn is_byte_form(w: &[u8]) -> bool
    ensures { result ≡ is_byte_form w.now }
{
    match w {
        [b'\\', b'\\' | b'x' | b'X', ..] => true,
        [b'\\', ..] => false,
        _ => true,
    }
}

// The byte of a whole word of these forms.
#[tactic(auto, using(basics::proofs::Tests::chosen), unfolding(crate::specs::Reader::form_byte))]
fn form_byte(charset: u32, w: &[u8]) -> Option<u8>
    ensures { result ≡ form_byte charset w.now }
{
    if is_byte_form(w) {
        return characters::byte_of(charset, w);
    }
    None
}

// The next word from `at` on as a byte operand.
#[tactic(auto, using(crate::proofs::Reader::ways), unfolding(crate::specs::Reader::byte_at))]
fn byte_at(charset: u32, line: &[u8], at: usize) -> Result<Parsed<u8>, LineFault>
    requires { at ≤ length line.now }
    ensures value { result ≡ byte_at charset line.now at }
    ensures byte_within { IfOk result (λ byte. byte.after ≤ length line.now) }
{
    let w = operands::operand_word(line, at)?;
    match form_byte(charset, &line[w.start..w.end]) {
        Some(value) => Ok(Parsed {
            value,
            after: w.end,
        }),
        None => Err(LineFault {
            refusal: Refusal::BadCharacter,
            left: line.len() - w.start,
        }),
    }
}

// A byte line from its byte operand on.
#[tactic(auto, using(basics::proofs::Tests::on_result), unfolding(crate::specs::Reader::byte_line))]
fn byte_line(charset: u32, line: &[u8], at: usize, left: usize) -> Result<TableLine, LineFault>
    requires { at ≤ length line.now }
    ensures value { result ≡ byte_line charset line.now at left }
    ensures line_within { IfOk result (λ read. LineWithin read) }
{
    let byte = byte_at(charset, line, at)?;
    let cell = operands::dots_operand_at(line, byte.after)?;
    operands::ended(line, cell.after)?;
    Ok(TableLine::Byte {
        byte: byte.value,
        cell: cell.value,
        left,
    })
}

// A line that is no comment, from its first word on.
#[tactic(auto, using(crate::proofs::Reader::on_word))]
fn table_line(charset: u32, line: &[u8]) -> Result<TableLine, LineFault>
    ensures value { result ≡ table_line charset line.now }
    ensures line_within { IfOk result (λ read. LineWithin read) }
{
    let w = lines::next_word(line, 0);
    let left = line.len() - w.start;
    let first = &line[w.start..w.end];
    if lines::same_bytes(first, b"dot") {
        let read = attributes::dot_at(States::WithFixed, line, w.end, left)?;
        return Ok(TableLine::Dot(read));
    }
    if lines::same_bytes(first, b"byte") {
        return byte_line(charset, line, w.end, left);
    }
    byte_line(charset, line, w.start, left)
}

// A whole line, without its end.
#[tactic(auto, using(lines::proofs::Openings::on_opening), unfolding(crate::specs::Reader::read_table_line))]
fn read_table_line(charset: u32, line: &[u8]) -> Result<TableLine, LineFault>
    ensures value { result ≡ read_table_line charset line.now }
    ensures line_within { IfOk result (λ read. LineWithin read) }
{
    match lines::open_line(line)? {
        Opening::Skip => Ok(TableLine::Skip),
        Opening::Directive => table_line(charset, line),
    }
}

// The cell of a byte, `own` being that of its line.
fn shown_by(places: [State; 8], own: Option<u8>, byte: u8) -> u8
    ensures { result ≡ shown_by places own byte }
{
    match own {
        None => attributes::cell_by(true, places, byte),
        Some(cell) => cell,
    }
}

impl SoFar {
    // Before the first line.
    fn new() -> SoFar
        ensures { result ≡ begun }
    {
        let dots = DotStates::new();
        SoFar {
            slots: [None; 256],
            dots,
            count: 0,
        }
    }

    // Takes one line more, its LF not in it; one that is refused changes nothing.
    #[tactic(auto, using(crate::proofs::Compile::on_line))]
    fn take(&mut self, charset: u32, line: &[u8]) -> Result<(), LineFault>
        requires few_dots { self.old.dots.lines < text_limit }
        requires few_bytes { self.old.count < text_limit }
        ensures does { step_of (left_by result self.new) ≡ step charset self.old (without_cr line.now) }
        ensures dots_bound { self.new.dots.lines ≤ self.old.dots.lines + 1 }
        ensures count_bound { self.new.count ≤ self.old.count + 1 }
    {
        match read_table_line(charset, lines::without_cr(line))? {
            TableLine::Skip => {}
            TableLine::Dot(read) => self.dots = self.dots.with_dot(read)?,
            TableLine::Byte { byte, cell, left } => {
                let slot = usize::from(byte);
                if self.slots[slot].is_some() {
                    return Err(LineFault {
                        refusal: Refusal::AlreadyDefined,
                        left,
                    });
                }
                self.slots[slot] = Some(cell);
                self.count += 1;
            }
        }
        Ok(())
    }

    // The cells of all bytes.
    #[tactic(auto, using(crate::proofs::Cells::last_written))]
    fn cells(&self) -> [u8; 256]
        ensures { result ≡ cells_from self.now.dots.places self.now.slots 0 }
    {
        let places = self.dots.places;
        let mut cells = [255u8; 256];
        for byte in 0..=255 {
            let slot = usize::from(byte);
            cells[slot] = shown_by(places, self.slots[slot], byte);
        }
        cells
    }
}

// An answer without cells.
pub fn without_cells(answer: Result<usize, Rejection>) -> Compilation
    ensures { (result.answer ≡ answer) × (result.cells ≡ no_cells) }
{
    Compilation {
        answer,
        cells: [255u8; 256],
    }
}

// Reads the lines of a text in a local character set, up to the first that is refused.
fn read_text(charset: u32, text: &[u8]) -> Result<SoFar, Rejection>
    ensures { text_gives result ≡ compiled_bytes charset text.now }
{
    if !scalars::is_charset(charset) {
        return Err(Refusal::UnknownCharset.into());
    }
    if TEXT_LIMIT < text.len() {
        return Err(Refusal::TextTooLong.into());
    }
    let mut table = SoFar::new();
    for (i, line) in lines::lines_of(text).enumerate() {
        if let Err(fault) = table.take(charset, line) {
            return Err(fault.in_line(line, i + 1));
        }
    }
    Ok(table)
}

// Compiles a byte table in a local character set: any number, any bytes.
pub fn compile_bytes(charset: u32, text: &[u8]) -> Compilation
    ensures answer { compiled_reply result.answer ≡ bytes_reply (compiled_bytes charset text.now) }
    ensures column { compiled_column result.answer ≡ outcome_column (compiled_bytes charset text.now) }
    ensures cells { result.cells ≡ outcome_cells (compiled_bytes charset text.now) }
{
    match read_text(charset, text) {
        Ok(table) => {
            let cells = table.cells();
            Compilation {
                answer: Ok(table.count),
                cells,
            }
        }
        Err(rejection) => without_cells(Err(rejection)),
    }
}
