// Runs three attributes tables over all 256 attribute bytes: for each its name, then 16 lines of 16 cells.
#![tactic(auto)]

use std::io;

fn write_table(rt: &impl Print, name: &str, text: &[u8]) -> io::Result<()> {
    println!(rt; "{name}")?;
    let table = attributes::compile_attributes(text);
    for byte in 0..=255 {
        let cell = attributes::attribute_cell(table.places, byte);
        let end = if byte % 16 == 15 { '\n' } else { ' ' };
        print!(rt; "{cell:02X}{end}")?;
    }
    Ok(())
}

fn main(rt: HostRuntime) -> io::Result<()> {
    write_table(
        &rt,
        "left_right",
        b"dot 1 =fg-blue\ndot 2 =fg-green\ndot 3 =fg-red\ndot 7 =fg-bright\n\
          dot 4 =bg-blue\ndot 5 =bg-green\ndot 6 =bg-red\ndot 8 =blink\n",
    )?;
    write_table(
        &rt,
        "invleft_right",
        b"dot 1 ~fg-blue\ndot 2 ~fg-green\ndot 3 ~fg-red\ndot 7 ~fg-bright\n\
          dot 4 =bg-blue\ndot 5 =bg-green\ndot 6 =bg-red\ndot 8 =blink\n",
    )?;
    write_table(
        &rt,
        "upper_lower",
        b"dot 1 =fg-red\ndot 4 =fg-green\ndot 2 =fg-blue\ndot 5 =fg-bright\n\
          dot 3 =bg-red\ndot 6 =bg-green\ndot 7 =bg-blue\ndot 8 =blink\n",
    )
}
