// Generic elements: the declared length and the first 64 bits are kept, the other bits are passed.
use crate::build::{accept, attach_detach, demand};
use crate::show::strict;
use std::io;

const MIXED: u64 = 0x0123_4567_89AB_CDEF;

// Behind the element stands element 15, of 3 bits that write 5: 15 + 16 + length + 16 + 3 + 1 = 51 + length. The windows
// that end one bit before the message's end and one bit before the element's end: 2.
fn type3_trial(rt: &impl Print, identifier: u64, length: u16, front: u64) -> io::Result<()> {
    let mut inside = demand();
    inside.type3(identifier, length, front);
    let mut m = inside;
    m.type3(15, 3, 5);
    m.closing_mbit();
    strict(
        rt,
        format_args!("type 3, identifier {identifier} length {length}"),
        &m,
    )?;
    strict(rt, "- one bit short", &m.short())?;
    strict(rt, "- its content one bit short", &inside.short())
}

// The last listed element, before the closing M-bit: 15 + 16 + length + 1 = 32 + length.
fn last_type3_trial(rt: &impl Print, length: u16, front: u64) -> io::Result<()> {
    let mut m = demand();
    m.type3(15, length, front);
    m.closing_mbit();
    strict(
        rt,
        format_args!("type 3, identifier 15 length {length}"),
        &m,
    )
}

// Number of entries 2 and `n` bits, the last listed element of an attach/detach: 8 + 16 + 6 + n + 1 = 31 + n.
fn attach_detach_type4(rt: &impl Print, length: u64, n: usize, front: u64) -> io::Result<()> {
    let mut m = attach_detach();
    m.type4(12, length, 2, n, front);
    m.closing_mbit();
    strict(
        rt,
        format_args!("type 4, identifier 12 length {length}"),
        &m,
    )
}

// The same as the first listed element of an accept, and behind it element 3, of 3 bits that write 5:
// 13 + 16 + 6 + n + 16 + 3 + 1 = 55 + n.
fn accept_type4(rt: &impl Print, length: u64, n: usize, front: u64) -> io::Result<()> {
    let mut m = accept();
    m.type4(2, length, 2, n, front);
    m.type3(3, 3, 5);
    m.closing_mbit();
    strict(rt, format_args!("type 4, identifier 2 length {length}"), &m)
}

// The length is judged once the number of entries is read: where the window ends before that, 2 and not 5.
fn type4_without_entries(rt: &impl Print) -> io::Result<()> {
    let mut m = attach_detach();
    m.type4(12, 5, 2, 0, 0);
    strict(rt, "type 4, number of entries cut off", &m.short())
}

fn type3_trials(rt: &impl Print) -> io::Result<()> {
    type3_trial(rt, 4, 0, 0)?;
    type3_trial(rt, 4, 1, 1)?;
    type3_trial(rt, 4, 63, 0x4000_0000_0000_0001)?;
    type3_trial(rt, 4, 64, 0x8000_0000_0000_0001)?;
    type3_trial(rt, 4, 65, 0x8000_0000_0000_0001)?;
    type3_trial(rt, 4, 66, MIXED)?;
    type3_trial(rt, 4, 2047, MIXED)?;
    type3_trial(rt, 9, 65, MIXED)?;
    type3_trial(rt, 11, 65, MIXED)?;
    last_type3_trial(rt, 64, MIXED)?;
    last_type3_trial(rt, 2047, MIXED)
}

// The kept length is the declared one less 6.
pub(crate) fn trials(rt: &impl Print) -> io::Result<()> {
    type3_trials(rt)?;
    attach_detach_type4(rt, 5, 0, 0)?;
    attach_detach_type4(rt, 6, 0, 0)?;
    attach_detach_type4(rt, 70, 64, MIXED)?;
    attach_detach_type4(rt, 71, 65, MIXED)?;
    accept_type4(rt, 5, 0, 0)?;
    accept_type4(rt, 6, 0, 0)?;
    accept_type4(rt, 70, 64, MIXED)?;
    accept_type4(rt, 71, 65, MIXED)?;
    type4_without_entries(rt)
}
