// The program `rmcalls` (document 01, "Calls outside the list"): call records from standard input, their lines to standard output. Its stdin
// and stdout are the document's printed example. What could not be read or written is said on standard error.
#![tactic(auto)]

use std::io;

fn main(rt: HostRuntime) -> io::Result<()> {
    if let Err(error) = console::pour(&mut rt.stdin(), &mut io::writer(&rt)) {
        eprintln!(&rt; "rmcalls: {error}")?;
    }
    Ok(())
}
