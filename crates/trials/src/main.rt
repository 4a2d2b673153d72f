// The messages of document 01 that are tried by running them: a line for each reading.
#![tactic(auto)]

mod build;
mod generics;
mod lists;
mod show;
mod skipping;
mod whole;
mod windows;

use std::io;

fn main(rt: HostRuntime) -> io::Result<()> {
    lists::trials(&rt)?;
    generics::trials(&rt)?;
    whole::trials(&rt)?;
    skipping::trials(&rt)?;
    windows::trials(&rt)
}
