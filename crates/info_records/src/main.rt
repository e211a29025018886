// Reads information records from lines of hexadecimal, and builds them from fields given as text.
#![tactic(auto)]

mod answers;
mod fields;
mod shown;

use answers::answer;
use std::io;

fn main(rt: HostRuntime) -> io::Result<()> {
    for line in rt.lines(rt.alloc()) {
        let line = line?;
        let text = answer(rt.alloc(), line.as_str())?;
        rt.println(text)?;
    }
    Ok(())
}
