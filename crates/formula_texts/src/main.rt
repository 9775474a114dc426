// Reads each text of the file `texts` and prints what `inspect` prints of it.
// A text follows a line `== NAME` and goes on to the next such line. Where the name ends with `\`, its last byte 10 is left out.
#![tactic(auto)]

mod texts;

use formula_text::read::read;
use report::refusal::print_refusal;
use report::shape::print_shape;
use std::fs;
use texts::Texts;

// Prints what one text gives, and the line that begins it.
fn show(rt: &HostRuntime, title: &[u8], text: &[u8]) -> anyhow::Result<()> {
    rt.println("")?;
    for b in title {
        let c = *b as char;
        print!(rt; "{c}")?;
    }
    rt.println("")?;
    match read(text) {
        Ok(formula) => print_shape(rt, &formula),
        Err(fault) => print_refusal(rt, fault, text),
    }
}

fn run(rt: &HostRuntime) -> anyhow::Result<()> {
    let file = fs::read(rt, "texts")?;
    let mut texts = Texts::new(file.as_slice());
    while let Some((title, text)) = texts.next() {
        show(rt, title, text)?;
    }
    Ok(())
}

fn main(rt: HostRuntime) -> anyhow::Result<()> {
    run(&rt)
}
