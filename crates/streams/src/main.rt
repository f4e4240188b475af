// Runs `rmcalls` on each file of data/, and writes the file's name before its text: every refusal that the program can give but 19, leftover bytes, no
// bytes, 4,096 (one piece of a run, and nothing after it), 8,205 (two, a record and leftover bytes), more than 65,536, and a cell that is spent (19). The
// expected text is not the engine's own: scripts/reference reckons it by the documents' definitions.
#![tactic(auto)]

use console::PourError;
use std::fs::File;
use std::io;
use std::rt::Files;

fn main(rt: HostRuntime) -> io::Result<()> {
    for path in ["refusals", "left", "empty", "piece", "cut", "full", "spent"] {
        show(&rt, path)?;
    }
    Ok(())
}

fn show(rt: &(impl Files + Print), path: &str) -> io::Result<()> {
    rt.println(path)?;
    let mut file = File::open(rt, path)?;
    // not by the error's `Display`, which speaks of an input: what this program says of a file stays
    console::pour(&mut file, &mut io::writer(rt)).map_err(|error| {
        io::Error::other(match error {
            PourError::NotWritten => "not all of the text could be written",
            PourError::NotRead => "the file could not be read to its end",
        })
    })
}
