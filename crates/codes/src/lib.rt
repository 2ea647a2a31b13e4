// What the exported calls answer, as one number, and the buffers that they fill for all 256 cells or bytes;
// specs/Codes.antt says how.
#![tactic(auto)]

ghost use Rattle.std.specs.Prelude.{◌≡◌, map, ◌≤◌, min, length};
ghost use Rattle.basics.specs.Refusals.{number_of, reply_of};
ghost use Rattle.basics.specs.Buffers.{over};
ghost use Rattle.definitions.specs.Effects.{definition_limit};
ghost use Rattle.lines.specs.Texts.{compiled_reply, compiled_column};
ghost use Rattle.codes.specs.Codes.{refusal_code, compile_code, answer_code, pair_code, sought_code};
ghost use Rattle.codes.specs.Codes.{filling_code, character_code, cell_count, entry_code, cells_of};
ghost use Rattle.codes.specs.Internal.{EntriesFit};

use attributes::State;
use basics::{Refusal, Refused};
use by_order::Sought;
use lines::Rejection;
use rules::Answer;

// A refusal as one number.
pub fn refusal_code(refusal: Refusal, column: usize, place: usize) -> u64
    ensures { result ≡ refusal_code (number_of refusal) column place }
{
    let number = u64::from(basics::number_of(refusal));
    // `as`, here and below: Rust has no `From` from `usize` to `u64`; what `put_entries` narrows fits by `EntriesFit`.
    let middle = column.min(0xFFFF) as u64;
    let low = place.min(0xFFFFFFFF) as u64;
    number * 0x1000000000000 + middle * 0x100000000 + low
}

// The refusal of a call that has no column.
pub fn refused_code(refused: Refused) -> u64
    ensures { result ≡ refusal_code (number_of refused.refusal) 0 refused.place }
{
    refusal_code(refused.refusal, 0, refused.place)
}

// What a compile call answers, as one number.
pub fn compile_code(answer: Result<usize, Rejection>) -> u64
    ensures { result ≡ compile_code (compiled_column answer) (compiled_reply answer) }
{
    match answer {
        Ok(count) => count as u64,
        Err(rejection) => refusal_code(rejection.refusal, rejection.column, rejection.line),
    }
}

// What lookup shows, as one number.
pub fn answer_code(a: Answer) -> u64
    requires { a.links ≤ definition_limit }
    ensures { result ≡ answer_code a }
{
    u64::from(a.cell) + 0x100 * u64::from(a.rule) + 0x10000 * (a.links as u64)
}

// The number of a pair that there may be, from 1, or 0.
fn pair_code(pair: Option<usize>) -> u64
    requires { pair_code pair ≤ definition_limit }
    ensures { result ≡ pair_code pair }
{
    match pair {
        Some(k) => k as u64 + 1,
        None => 0,
    }
}

// What a search tells, as one number.
pub fn sought_code(sought: Sought) -> u64
    requires { (sought.comparisons ≤ 11) × (pair_code sought.pair ≤ definition_limit) }
    ensures { result ≡ sought_code sought }
{
    sought.comparisons as u64 + 0x100 * pair_code(sought.pair)
}

// What a call that fills answers, as one number.
pub fn filling_code(answer: Result<(), Refused>) -> u64
    ensures { result ≡ filling_code (reply_of answer) }
{
    match answer {
        Ok(()) => 0,
        Err(refused) => refused_code(refused),
    }
}

// What an entry types, as one number.
pub fn character_code(typed: Option<u32>) -> u64
    ensures { result ≡ character_code typed }
{
    match typed {
        Some(c) => u64::from(c) + 1,
        None => 0,
    }
}

// As many cells as eight dots have, and as many attribute bytes.
pub const CELL_COUNT: usize = 256;

// Writes what each of the 256 entries types.
pub fn put_entries(entries: [Option<u32>; 256], codes: &mut [u32])
    requires { (cell_count ≤ length codes.old) × EntriesFit entries }
    ensures { codes.new ≡ over (map entry_code entries) codes.old }
{
    for (i, typed) in entries.iter().enumerate() {
        codes[i] = character_code(*typed) as u32;
    }
}

// Writes the cell of each of the 256 attribute bytes.
#[tactic(auto, using(crate::proofs::WholeTables::cells_last))]
pub fn put_cells(places: [State; 8], cells: &mut [u8])
    requires { cell_count ≤ length cells.old }
    ensures { cells.new ≡ over (cells_of places) cells.old }
{
    for byte in 0..=255 {
        cells[usize::from(byte)] = attributes::attribute_cell(places, byte);
    }
}

// Writes the 256 cells of a byte table.
#[tactic(auto, using(crate::proofs::WholeTables::size_within))]
pub fn put_bytes(all: [u8; 256], cells: &mut [u8])
    requires { cell_count ≤ length cells.old }
    ensures { cells.new ≡ over all cells.old }
{
    cells[..CELL_COUNT].copy_from_slice(&all);
}
