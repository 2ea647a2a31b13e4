// Compiling a text table: what a line does, and the compile call. Words and a count stand for the definitions so far.
// A local character set is a number, as in `scalars`: callers name any.
#![tactic(auto)]

ghost use Rattle.std.specs.Prelude.{◌≡◌, ◌≤◌, ◌<◌, length, OnErr};
ghost use Rattle.lines.specs.Lines.{without_cr};
ghost use Rattle.lines.specs.Texts.{text_limit, accepted, compiled_reply, compiled_column};
ghost use Rattle.blocks.specs.Internal.{blocks_of};
ghost use Rattle.pairs.specs.Words.{charset_of};
ghost use Rattle.table.specs.Internal.{Written, known};
ghost use Rattle.compiler.specs.Compile.{effect_of, line_effect, closing, compiled};
ghost use Rattle.compiler.specs.Compile.{compile_reply, compile_column, compile_words};
ghost use Rattle.compiler.specs.Internal.{standing, Leaves, Settled};

use basics::Refusal;
use blocks::Blocks;
use lines::{LineFault, Rejection, TEXT_LIMIT};
use pairs::Pairs;
use reader::Reading;
use table::TABLE_WORDS;

// What the lines so far leave, beside the words: how many definitions and lines there were, and the open blocks.
#[derive(Clone, Copy)]
pub struct State {
    pub count: usize,
    pub lines: usize,
    pub blocks: Blocks,
}

// What a line as read does: 22 and 11 to 13 refuse a definition that would take effect.
fn effect_of(pairs: Pairs<'_>, reading: Reading) -> Result<Reading, LineFault>
    ensures { result ≡ effect_of (known pairs.entry) reading }
{
    if let Reading::Define(d, left) = reading {
        if let Err(refusal) = pairs::judge(&pairs, d) {
            return Err(LineFault { refusal, left });
        }
    }
    Ok(reading)
}

// What a line, without its end, does: its first fault, nothing, the definition that takes effect, or what it does to
// the open blocks.
#[tactic(auto, unfolding(crate::specs::Compile::line_effect))]
fn line_effect(pairs: Pairs<'_>, blocks: &Blocks, line: &[u8]) -> Result<Reading, LineFault>
    ensures { result
        ≡ line_effect (charset_of pairs.entry.words.now) (known pairs.entry) (blocks_of blocks.now) line.now }
{
    let reading = reader::read_line(pairs, blocks.around(), line)?;
    effect_of(pairs, reading)
}

// Takes one line more, without its end, into the words and the state; one that is refused changes neither. Both are
// passed on by themselves: a struct that holds a lent buffer has to promise in each contract that it still holds the
// same one. The state is lent, since it is too large to be copied at each line.
fn take_line(words: &mut [u32], state: &mut State, line: &[u8]) -> Result<(), LineFault>
    requires written { Written words.old state.old.count }
    requires few { state.old.lines < text_limit }
    ensures leaves { Leaves words.old state.old line.now result state.new words.new }
    ensures same { OnErr result (state.new ≡ state.old) }
{
    let so_far = Pairs {
        words: &*words,
        count: state.count,
    };
    let reading = line_effect(so_far, &state.blocks, line)?;
    state.lines += 1;
    match reading {
        Reading::NoEffect => {}
        Reading::Block(read) => state.blocks.take_line(read, state.lines),
        Reading::Define(d, _) => {
            table::put(words, state.count, d);
            state.count += 1;
        }
    }
    Ok(())
}

// The same of a line with its CR, if it has one.
fn step_line(words: &mut [u32], state: &mut State, line: &[u8]) -> Result<(), LineFault>
    requires written { Written words.old state.old.count }
    requires few { state.old.lines < text_limit }
    ensures leaves { Leaves words.old state.old (without_cr line.now) result state.new words.new }
    ensures same { OnErr result (state.new ≡ state.old) }
{
    take_line(words, state, lines::without_cr(line))
}

// The answer after all lines: where a block is open, it is refused at the line that opened the innermost, and the words
// are zeroed.
fn close(words: &mut [u32], state: &State) -> Result<usize, Rejection>
    requires { Written words.old state.now.count }
    ensures { Settled (closing (accepted (standing words.old state.now))) words.old result words.new }
{
    match state.blocks.innermost() {
        None => Ok(state.count),
        Some(line) => {
            table::clear(words);
            Err(Rejection {
                refusal: Refusal::UnclosedBlock,
                line,
                column: 0,
            })
        }
    }
}

// Reads the lines of a text into words that are an empty table; a refusal zeroes them.
fn read_lines(words: &mut [u32], text: &[u8]) -> Result<usize, Rejection>
    requires empty { Written words.old 0 }
    requires short { length text.now ≤ text_limit }
    ensures { Settled (compiled (charset_of words.old) text.now) words.old result words.new }
{
    let mut state = State {
        count: 0,
        lines: 0,
        blocks: Blocks::new(),
    };
    for line in lines::lines_of(text) {
        if let Err(fault) = step_line(words, &mut state, line) {
            table::clear(words);
            return Err(fault.in_line(line, state.lines + 1));
        }
    }
    close(words, &state)
}

// Compiles a text table: any set, any bytes, any slice.
pub fn compile(charset: u32, text: &[u8], words: &mut [u32]) -> Result<usize, Rejection>
    ensures answer { compiled_reply result ≡ compile_reply charset text.now (length words.old) }
    ensures column { compiled_column result ≡ compile_column charset text.now (length words.old) }
    ensures words { words.new ≡ compile_words charset text.now words.old }
{
    if !scalars::is_charset(charset) {
        return Err(Refusal::UnknownCharset.into());
    }
    if words.len() < TABLE_WORDS {
        return Err(Refusal::ShortSlice.into());
    }
    if TEXT_LIMIT < text.len() {
        return Err(Refusal::TextTooLong.into());
    }
    table::make_empty(words, charset);
    read_lines(words, text)
}
