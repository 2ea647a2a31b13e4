// The compile call of text tables, in the edition and the local character set that the caller names.
#![tactic(auto)]

ghost use Rattle.std.specs.Prelude.{◌≡◌, length};
ghost use Rattle.editions.specs.Editions.{edition_reply, edition_column, edition_words, edition_cells};
ghost use Rattle.lines.specs.Texts.{compiled_reply, compiled_column};

use basics::Refusal;
use byte_tables::Compilation;

// Compiles a text table of edition 2 into `words`, or a byte table, edition 1, into the cells that it hands back: any
// bytes, any slice, any edition, any set. Both are numbers, as C names them.
pub fn compile(edition: u32, charset: u32, text: &[u8], words: &mut [u32]) -> Compilation
    ensures answer { compiled_reply result.answer ≡ edition_reply edition charset text.now (length words.old) }
    ensures column { compiled_column result.answer ≡ edition_column edition charset text.now (length words.old) }
    ensures words { words.new ≡ edition_words edition charset text.now words.old }
    ensures cells { result.cells ≡ edition_cells edition charset text.now }
{
    match edition {
        2 => byte_tables::without_cells(compiler::compile(charset, text, words)),
        1 => byte_tables::compile_bytes(charset, text),
        _ => byte_tables::without_cells(Err(Refusal::UnknownEdition.into())),
    }
}
