// Records around each question of a writing call, written to octets of ones: a line for each. The lines that it is held to
// are the original's and the judge's (`host/run write-trials`).
#![tactic(auto)]

mod beyond;
mod faults;
mod groups;
mod hidden;
mod lists;
mod numbers;
mod plain;
mod records;
mod show;
mod values;
mod windows;

use std::io;

fn main(rt: HostRuntime) -> io::Result<()> {
    plain::trials(&rt)?;
    numbers::widths(&rt)?;
    numbers::ciphering(&rt)?;
    groups::trials(&rt)?;
    numbers::saving(&rt)?;
    numbers::type4_elements(&rt)?;
    lists::trials(&rt)?;
    windows::lengths(&rt)?;
    faults::trials(&rt)?;
    windows::places(&rt)?;
    beyond::trials(&rt)?;
    hidden::trials(&rt)
}
