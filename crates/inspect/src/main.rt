// Reads a formula on standard input and prints its shape, or why it is refused.
#![tactic(auto)]

use formula_text::read::read;
use report::refusal::print_refusal;
use report::shape::print_shape;
use std::env;
use std::io::Read;

const USAGE: &str = "usage: inspect < FORMULA
Prints the shape of a formula in QDIMACS, or the refusal 'layer number line', its cause and the faulty line.";

fn run(rt: &HostRuntime) -> anyhow::Result<()> {
    let mut args = env::args(rt)?;
    let _name = args.next();
    if args.next().is_some() {
        rt.println(USAGE)?;
        return Ok(());
    }
    let mut text = Vec::new(rt.alloc());
    rt.stdin().read_to_end(&mut text)?;
    match read(text.as_slice()) {
        Ok(formula) => print_shape(rt, &formula),
        Err(fault) => print_refusal(rt, fault, text.as_slice()),
    }
}

fn main(rt: HostRuntime) -> anyhow::Result<()> {
    run(&rt)
}
