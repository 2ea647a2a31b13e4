// Runs the cases of standard input, writes each answer that differs from the one expected, then how many there were.
#![tactic(auto)]

use cases::Case;
use std::io;

// More than the cases take; an input that fills it is told.
const BUFFER: usize = 262144;

// A line that is empty or a comment is no case.
fn run(rt: &impl Print, file: &[u8]) -> io::Result<()> {
    let mut cases = 0u64;
    let mut differ = 0u64;
    for (i, line) in file.split(|b| *b == b'\n').enumerate() {
        if lines::is_over(line, 0) {
            continue;
        }
        cases = cases.saturating_add(1);
        let case = Case::of(line);
        let answer = case.answer();
        if answer.as_bytes() != case.expected {
            differ = differ.saturating_add(1);
            println!(rt; "line {}: got {answer}", i + 1)?;
        }
    }
    println!(rt; "{cases} cases, {differ} differ")
}

fn main(rt: HostRuntime) -> io::Result<()> {
    let mut file = [0; BUFFER];
    let n = input::read_full(&mut rt.reader(), &mut file)?;
    run(&rt, &file[..n])?;
    if n == BUFFER {
        println!(rt; "the input fills the buffer of {n} bytes: what lies behind it was not read")?;
    }
    Ok(())
}
