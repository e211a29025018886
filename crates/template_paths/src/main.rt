// Checks a list of template paths, one a line, as someone preparing a printer's volume would write it.
// Reads the file that is named, or standard input.
#![tactic(auto)]

use std::alloc::Global;
use std::{env, fs, io};
use summary::Summary;

mod entry;
mod summary;
mod text;

use entry::Accepted;
use text::Visible;

fn input(rt: &HostRuntime) -> anyhow::Result<String> {
    let mut args = env::args(rt)?;
    let _program = args.next();
    match args.next() {
        Some(path) => Ok(fs::read_to_string(rt, path.as_str())?),
        None => Ok(io::read_to_string(rt.alloc(), rt.stdin())?),
    }
}

fn check(rt: &HostRuntime, heap: Global, list: &str) -> anyhow::Result<()> {
    let mut summary = Summary::new(heap);
    for (number, line) in (1usize..).zip(list.lines()) {
        let entry = entry::judge(heap, line)?;
        println!(rt; "{number}: {}", Visible(line))?;
        match &entry {
            Ok(path) => rt.print(Accepted::new(heap, path)?)?,
            Err(refusal) => rt.print(refusal)?,
        }
        summary.note(heap, number, entry)?;
    }
    rt.print(summary)?;
    Ok(())
}

fn run(rt: &HostRuntime) -> anyhow::Result<()> {
    let list = input(rt)?;
    check(rt, rt.alloc(), list.as_str())
}

fn main(rt: HostRuntime) -> anyhow::Result<()> {
    run(&rt)
}
