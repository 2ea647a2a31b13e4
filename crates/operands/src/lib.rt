// The operands of a directive: a character, a byte, dots, a cell. A local character set is a number, as in `scalars`:
// callers name any.
#![tactic(auto)]

ghost use Rattle.std.specs.Prelude.{◌≡◌, ◌≤◌, ◌<◌, length, IfOk, IfErr};
ghost use Rattle.operands.specs.Operands.{operand_word, ended, character_at, dots_operand_at, cell_operand_at};
ghost use Rattle.operands.specs.Internal.{OperandWithin};

use basics::Refusal;
use characters::OperandKind;
use lines::{LineFault, Parsed, Word};

// The next word from `at` on, with which an operand begins.
#[tactic(auto, using(crate::proofs::Operands::word_cases), unfolding(crate::specs::Operands::operand_word))]
pub fn operand_word(line: &[u8], at: usize) -> Result<Word, LineFault>
    requires { at ≤ length line.now }
    ensures value { result ≡ operand_word line.now at }
    ensures word_order { IfOk result (λ w. w.start < w.end) }
    ensures word_within { IfOk result (λ w. w.end ≤ length line.now) }
    ensures fault_within { IfErr result (λ fault. fault.left ≤ length line.now) }
{
    let w = lines::next_word(line, at);
    if w.start == w.end {
        return Err(LineFault {
            refusal: Refusal::MissingOperand,
            left: 0,
        });
    }
    Ok(w)
}

// Behind the last operand: nothing, or a comment.
#[tactic(auto, using(crate::proofs::Operands::end_cases))]
pub fn ended(line: &[u8], at: usize) -> Result<(), LineFault>
    requires { at ≤ length line.now }
    ensures { result ≡ ended line.now at }
{
    if lines::is_over(line, at) {
        return Ok(());
    }
    let w = lines::next_word(line, at);
    Err(LineFault {
        refusal: Refusal::TrailingText,
        left: line.len() - w.start,
    })
}

// The next word from `at` on as an operand of that kind, by a local character set.
#[tactic(auto, using(basics::proofs::Tests::on_value), unfolding(crate::specs::Operands::character_at))]
pub fn character_at(
    charset: u32,
    line: &[u8],
    at: usize,
    kind: OperandKind,
) -> Result<Parsed<u32>, LineFault>
    requires { at ≤ length line.now }
    ensures value { result ≡ character_at charset kind line.now at }
    ensures operand_within { OperandWithin result (length line.now) }
{
    let w = operand_word(line, at)?;
    match characters::word_value(charset, &line[w.start..w.end], kind) {
        Some(value) => Ok(Parsed {
            value,
            after: w.end,
        }),
        None => Err(LineFault {
            refusal: Refusal::BadCharacter,
            left: line.len() - w.start,
        }),
    }
}

// What begins at the next word from `at` on as a dots operand.
#[tactic(auto, unfolding(crate::specs::Operands::dots_operand_at))]
pub fn dots_operand_at(line: &[u8], at: usize) -> Result<Parsed<u8>, LineFault>
    requires { at ≤ length line.now }
    ensures value { result ≡ dots_operand_at line.now at }
    ensures dots_within { OperandWithin result (length line.now) }
{
    let w = operand_word(line, at)?;
    dots::dots_at(line, w.start).ok_or(LineFault {
        refusal: Refusal::BadDots,
        left: line.len() - w.start,
    })
}

// What begins at the next word from `at` on as a cell operand: as `dots_operand_at`, by another reader. One function
// that takes the reader was tried: its contract, over what the reader answers, is longer than the body that it saves.
#[tactic(auto, unfolding(crate::specs::Operands::cell_operand_at))]
pub fn cell_operand_at(line: &[u8], at: usize) -> Result<Parsed<u8>, LineFault>
    requires { at ≤ length line.now }
    ensures value { result ≡ cell_operand_at line.now at }
    ensures cell_within { OperandWithin result (length line.now) }
{
    let w = operand_word(line, at)?;
    dots::cell_at(line, w.start).ok_or(LineFault {
        refusal: Refusal::BadDots,
        left: line.len() - w.start,
    })
}
