// Reads a text table in ISO 8859-1 from standard input and writes its listing, or the line that tells its refusal.
#![tactic(auto)]

use listing::LISTING_LIMIT;
use std::io;

// Words that were just compiled are a table, and every listing has room, so nothing is refused.
fn write_listing(rt: &impl Print, words: &[u32]) -> io::Result<()> {
    let mut bytes = [0; LISTING_LIMIT];
    if let Ok(length) = listing::list_table(words, &mut bytes)
        && let Some(listing) = bytes.get(..length)
    {
        rt.write_all(listing)?;
    }
    Ok(())
}

fn main(rt: HostRuntime) -> io::Result<()> {
    // One byte more than a text may have, so that a longer one is seen to be too long.
    let mut text = [0; lines::TEXT_LIMIT + 1];
    let n = input::read_full(&mut rt.reader(), &mut text)?;
    let mut words = [0; table::TABLE_WORDS];
    let answer = compiler::compile(scalars::ISO_8859_1, &text[..n], &mut words);
    match answer {
        Ok(_) => write_listing(&rt, &words),
        Err(_) => rt.write_all(report::report(answer).as_bytes()),
    }
}
