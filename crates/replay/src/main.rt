// Runs the stored lists and prints a line for each with what came of it. data/README.md says what the lists hold and where they come from.
#![tactic(auto)]

mod list; // list.rt: the entries of a list

use std::fs::File;
use std::io;
use std::rt::Files;

// The name is written before the list is opened, so that a run that is stopped has named the list it stopped at.
fn replay(rt: &(impl Files + Print), name: &str) -> io::Result<()> {
    print!(rt; "{name}")?;
    let Ok(mut file) = File::open(rt, name) else {
        return println!(rt; ": cannot be opened");
    };
    match list::run(&mut file) {
        Some(tally) => println!(rt; ": {tally}"),
        None => println!(rt; ": does not start as a list does"),
    }
}

fn main(rt: HostRuntime) -> io::Result<()> {
    for name in [
        "rfc7253.list",
        "rfc7253-iterated.list",
        "lengths.list",
        "edges.list",
        "flipped.list",
        "departures.list",
        "long.list",
        "states.list",
        "spill.list",
        "wrong.list",
        "wrong-states.list",
        "wrong-spill.list",
    ] {
        replay(&rt, name)?;
    }
    Ok(())
}
