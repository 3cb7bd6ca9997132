// Answers on standard output.
use show::text;
use std::io;

// An answer's number, and its values after their names.
pub fn answer(rt: &impl Print, number: u32, names: &[u8], values: &[u64]) -> io::Result<()> {
    print!(rt; ": number {number}")?;
    text(rt, names)?;
    for value in values {
        print!(rt; " {value}")?;
    }
    Ok(())
}
