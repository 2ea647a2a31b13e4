// The calls exported for C and Rust. Each answers one number; codes/specs/Codes.antt says how.
#![tactic(auto)]

ghost use Rattle.std.specs.Prelude.{◌≡◌, length};
ghost use Rattle.basics.specs.Buffers.{written_reply, written_over};
ghost use Rattle.editions.specs.Editions.{edition_reply, edition_column, edition_words};
ghost use Rattle.lookup.specs.Calls.{lookup_reply, page_plan, Pages};
ghost use Rattle.by_order.specs.Calls.{build_plan, ordered_lookup, ordered_plan, search_reply};
ghost use Rattle.windows.specs.Windows.{PagesWindows};
ghost use Rattle.listing.specs.Listing.{listing_plan, listing_reply, listing_bytes};
ghost use Rattle.codes.specs.Codes.{compile_code, count_code, lookup_code, search_code, filling_code};
ghost use Rattle.codes.specs.Codes.{typed_code, attribute_code, entries_reply, entries_after};
ghost use Rattle.codes.specs.Codes.{cells_reply, cells_column, cells_after};
ghost use Rattle.codes.specs.Codes.{byte_cells_reply, byte_cells_column, byte_cells_after};

use basics::Refusal;
use codes::{
    CELL_COUNT, answer_code, character_code, compile_code, filling_code, put_bytes, put_cells,
    put_entries, refused_code, sought_code,
};
use windows::Window;

// Compiles a text table of edition 2 into 2,050 words of `words`, or reads a byte table, edition 1, and leaves them, in
// a local character set: the count of definitions or of byte lines, or the refusal with its line and column.
#[unsafe(no_mangle)]
pub extern "C" fn heathdapple_compile(edition: u32, set: u32, text: &[u8], words: &mut [u32]) -> u64
    ensures code { result
        ≡ compile_code (edition_column edition set text.now (length words.old))
        (edition_reply edition set text.now (length words.old)) }
    ensures words { words.new ≡ edition_words edition set text.now words.old }
{
    compile_code(editions::compile(edition, set, text, words).answer)
}

// Looks a character up: cell + 2^8 × rule + 2^16 × links, or the refusal with its place.
#[tactic(auto, using(lookup::proofs::WholeWalks::shown_small))]
#[unsafe(no_mangle)]
pub extern "C" fn heathdapple_look_up(words: &[u32], character: u32) -> u64
    ensures { result ≡ lookup_code (lookup_reply words.now character) }
{
    lookup::look_up(words, character).map_or_else(refused_code, answer_code)
}

// Fills the cells and rules of a page: 0, or the refusal with its place.
#[unsafe(no_mangle)]
pub extern "C" fn heathdapple_page(
    words: &[u32],
    characters: &[u32],
    cells: &mut [u8],
    rules: &mut [u8],
) -> u64
    ensures { Pages filling_code
        (page_plan words.now characters.now (length cells.old) (length rules.old))
        characters.now cells.old rules.old result cells.new rules.new }
{
    filling_code(lookup::page(words, characters, cells, rules))
}

// Fills the cells and rules of windows of a page, one after another: 0, or the refusal with its place.
#[unsafe(no_mangle)]
pub extern "C" fn heathdapple_windows(
    words: &[u32],
    characters: &[u32],
    windows: &[Window],
    cells: &mut [u8],
    rules: &mut [u8],
) -> u64
    ensures { PagesWindows filling_code windows.now words.now characters.now cells.old rules.old
        result cells.new rules.new }
{
    filling_code(windows::show(windows, words, characters, cells, rules))
}

// The character that a cell types: 0 for nothing, else the character + 1, or the refusal with its place.
#[unsafe(no_mangle)]
pub extern "C" fn heathdapple_typed(words: &[u32], cell: u8) -> u64
    ensures { result ≡ typed_code words.now cell }
{
    let typing = typing::typed_entries(words);
    match typing.answer {
        Ok(()) => character_code(typing.entries[usize::from(cell)]),
        Err(refused) => refused_code(refused),
    }
}

// What each of the 256 cells types, at the front of `entries`, as heathdapple_typed answers it: 0, or the refusal with
// its place.
#[tactic(auto, using(codes::proofs::WholeTables::entries_fit))]
#[unsafe(no_mangle)]
pub extern "C" fn heathdapple_entries(words: &[u32], entries: &mut [u32]) -> u64
    ensures code { result ≡ filling_code (entries_reply words.now (length entries.old)) }
    ensures entries { entries.new ≡ entries_after words.now entries.old }
{
    if entries.len() < CELL_COUNT {
        return refused_code(Refusal::ShortSlice.into());
    }
    let typing = typing::typed_entries(words);
    if typing.answer.is_ok() {
        put_entries(typing.entries, entries);
    }
    filling_code(typing.answer)
}

// The cell of an attribute byte by an attributes text, or the refusal of that text with its line and column.
#[unsafe(no_mangle)]
pub extern "C" fn heathdapple_attribute_cell(text: &[u8], byte: u8) -> u64
    ensures { result ≡ attribute_code text.now byte }
{
    let table = attributes::compile_attributes(text);
    match table.answer {
        Ok(_) => u64::from(attributes::attribute_cell(table.places, byte)),
        refused => compile_code(refused),
    }
}

// The cells of all attribute bytes by an attributes text, at the front of `cells`: the count of `dot` lines, or the
// refusal with its line and column.
#[unsafe(no_mangle)]
pub extern "C" fn heathdapple_attribute_cells(text: &[u8], cells: &mut [u8]) -> u64
    ensures code { result
        ≡ compile_code (cells_column text.now (length cells.old))
        (cells_reply text.now (length cells.old)) }
    ensures cells { cells.new ≡ cells_after text.now cells.old }
{
    if cells.len() < CELL_COUNT {
        return refused_code(Refusal::ShortSlice.into());
    }
    let table = attributes::compile_attributes(text);
    if table.answer.is_ok() {
        put_cells(table.places, cells);
    }
    compile_code(table.answer)
}

// The cells of all bytes by a byte table's text, edition 1, in a local character set, at the front of `cells`, all 255
// if it is refused: the count of byte lines, or the refusal with its line and column.
#[unsafe(no_mangle)]
pub extern "C" fn heathdapple_byte_cells(set: u32, text: &[u8], cells: &mut [u8]) -> u64
    ensures code { result
        ≡ compile_code (byte_cells_column set text.now (length cells.old))
        (byte_cells_reply set text.now (length cells.old)) }
    ensures cells { cells.new ≡ byte_cells_after set text.now cells.old }
{
    if cells.len() < CELL_COUNT {
        return refused_code(Refusal::ShortSlice.into());
    }
    let table = byte_tables::compile_bytes(set, text);
    put_bytes(table.cells, cells);
    compile_code(table.answer)
}

// Lists a table as text, a line a definition, at the front of `buffer`: the length of the text, or the refusal
// with its place. `as`, here and below: Rust has no `From` from `usize` to `u64`.
#[unsafe(no_mangle)]
pub extern "C" fn heathdapple_list(words: &[u32], buffer: &mut [u8]) -> u64
    ensures code { result ≡ count_code (listing_reply (listing_plan words.now (length buffer.old))) }
    ensures bytes { buffer.new ≡ listing_bytes (listing_plan words.now (length buffer.old)) buffer.old }
{
    listing::list_table(words, buffer).map_or_else(refused_code, |length| length as u64)
}

// Writes the order of a table, its pair numbers by rising character, at the front of `order`: the count of
// definitions, or the refusal with its place.
#[unsafe(no_mangle)]
pub extern "C" fn heathdapple_order(words: &[u32], order: &mut [u32]) -> u64
    ensures code { result ≡ count_code (written_reply (build_plan words.now (length order.old))) }
    ensures order { order.new ≡ written_over (build_plan words.now (length order.old)) order.old }
{
    by_order::build_order(words, order).map_or_else(refused_code, |count| count as u64)
}

// Searches a character by the order: comparisons + 2^8 × (pair number + 1), the second 0 for none, or the refusal
// with its place.
#[tactic(auto, using(by_order::proofs::Plain::few_compared, codes::proofs::Codes::pair_fits))]
#[unsafe(no_mangle)]
pub extern "C" fn heathdapple_search(words: &[u32], order: &[u32], character: u32) -> u64
    ensures { result ≡ search_code (search_reply words.now order.now character) }
{
    by_order::search(words, order, character).map_or_else(refused_code, sought_code)
}

// Looks a character up by the order, as heathdapple_look_up does.
#[tactic(auto, using(by_order::proofs::Plain::ordered_small))]
#[unsafe(no_mangle)]
pub extern "C" fn heathdapple_look_up_by(words: &[u32], order: &[u32], character: u32) -> u64
    ensures { result ≡ lookup_code (ordered_lookup words.now order.now character) }
{
    by_order::look_up_by(words, order, character).map_or_else(refused_code, answer_code)
}

// Fills the cells and rules of a page by the order, as heathdapple_page does.
#[unsafe(no_mangle)]
pub extern "C" fn heathdapple_page_by(
    words: &[u32],
    order: &[u32],
    characters: &[u32],
    cells: &mut [u8],
    rules: &mut [u8],
) -> u64
    ensures { Pages filling_code
        (ordered_plan words.now order.now characters.now (length cells.old) (length rules.old))
        characters.now cells.old rules.old result cells.new rules.new }
{
    filling_code(by_order::page_by(words, order, characters, cells, rules))
}
