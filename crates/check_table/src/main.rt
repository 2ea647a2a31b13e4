// Reads a text table in ISO 8859-1 from standard input and writes what compiling answers, on one line.
#![tactic(auto)]

use std::io;

fn main(rt: HostRuntime) -> io::Result<()> {
    // One byte more than a text may have, so that a longer one is seen to be too long.
    let mut text = [0; lines::TEXT_LIMIT + 1];
    let n = input::read_full(&mut rt.reader(), &mut text)?;
    let mut words = [0; table::TABLE_WORDS];
    let answer = compiler::compile(scalars::ISO_8859_1, &text[..n], &mut words);
    let line = report::report(answer);
    rt.write_all(line.as_bytes())
}
