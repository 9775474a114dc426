// Reads and checks a certificate, prints the sheet of replies, and plays the values on standard input.
#![tactic(auto)]

mod evening;
mod sheet;

use certificate::accepted::Accepted;
use certificate::check::check;
use certificate_text::read::read as read_certificate;
use entries::entry::{Entry, Reply};
use evening::play;
use faults::fault::Fault;
use formula_text::read::read as read_formula;
use qbf::formula::Formula;
use report::refusal::print_refusal_in;
use sheet::print_sheet;
use std::io::Read;
use std::{env, fs};

const USAGE: &str = "usage: touring FORMULA CERTIFICATE < VALUES
Reads a formula and a certificate of it (a file, or - for standard input) and checks the certificate.
Prints the verdict and the replies to give, level by level, or the refusal 'layer number line', its cause and the faulty line.
Then plays: each line of standard input is a value of the other side, in 0 and 1, the block's first variable first.";

// What a file holds, or standard input where its name is -.
fn text_of(rt: &HostRuntime, name: &str) -> anyhow::Result<Vec<u8>> {
    if name == "-" {
        let mut text = Vec::new(rt.alloc());
        rt.stdin().read_to_end(&mut text)?;
        return Ok(text);
    }
    Ok(fs::read(rt, name)?)
}

// A table with a place for each line that a text can have, and so for each entry.
fn table_for(rt: &HostRuntime, text: &[u8]) -> anyhow::Result<Vec<Entry>> {
    let blank = Entry {
        level: 0,
        set: 0,
        reply: Reply::None,
    };
    Ok(vec![in rt.alloc(); blank; text.split(|b| *b == b'\n').count()]?)
}

// Reads a certificate of a formula into a table, and checks it.
fn accept<'a>(
    formula: &'a Formula,
    text: &[u8],
    table: &'a mut [Entry],
) -> Result<Accepted<'a>, Fault> {
    let certificate = read_certificate(text, formula, table)?;
    let entries = table.get(0..certificate.count).unwrap_or(&[]);
    check(formula, certificate.verdict, entries)
}

fn run(rt: &HostRuntime) -> anyhow::Result<()> {
    let mut args = env::args(rt)?;
    let _name = args.next();
    let (Some(formula), Some(certificate), None) = (args.next(), args.next(), args.next()) else {
        rt.println(USAGE)?;
        return Ok(());
    };
    let formula_text = text_of(rt, formula.as_str())?;
    let text = text_of(rt, certificate.as_str())?;
    let mut table = table_for(rt, text.as_slice())?;
    let formula = read_formula(formula_text.as_slice());
    let accepted = match &formula {
        Ok(formula) => accept(formula, text.as_slice(), table.as_mut_slice()),
        Err(fault) => Err(*fault),
    };
    match accepted {
        Ok(accepted) => {
            print_sheet(rt, &accepted)?;
            play(rt, accepted)
        }
        Err(fault) => print_refusal_in(rt, fault, formula_text.as_slice(), text.as_slice()),
    }
}

fn main(rt: HostRuntime) -> anyhow::Result<()> {
    run(&rt)
}
