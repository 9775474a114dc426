use faults::fault::Fault;
use text::faulty::faulty_line;

// A line for people: bytes that are no printable ASCII as \x and two digits.
fn print_line(rt: &HostRuntime, line: &[u8]) -> anyhow::Result<()> {
    for b in line {
        match b {
            b' '..=b'~' => print!(rt; "{}", *b as char)?,
            _ => print!(rt; "\\x{b:02x}")?,
        }
    }
    rt.println("")?;
    Ok(())
}

// The line `layer number line` with its values, and for people the cause and the line at fault.
pub fn print_refusal(rt: &HostRuntime, fault: Fault, formula: &[u8]) -> anyhow::Result<()> {
    print_refusal_in(rt, fault, formula, &[])
}

// The same of a fault whose line stands in one of two texts.
pub fn print_refusal_in(
    rt: &HostRuntime,
    fault: Fault,
    formula: &[u8],
    certificate: &[u8],
) -> anyhow::Result<()> {
    println!(rt; "layer number line")?;
    println!(rt; "{fault}")?;
    println!(rt; "{}", fault.cause)?;
    match faulty_line(fault, formula, certificate) {
        Some(found) => print_line(rt, found),
        None => Ok(()),
    }
}
