// Unlisted elements: skipped where they are whole inside the window, refused with 7 by the strict reading.
use crate::build::{Message, accept, attach_detach, demand};
use crate::show::both;
use std::io;

// Before the first listed element, between and behind the last: 13, 6, 7 and 14 are unlisted, 4 in all.
// 15 + 19 + 19 + 16 + 18 + 2,063 + 19 + 17 + 21 + 1 = 2,208.
fn demand_around(rt: &impl Print) -> io::Result<()> {
    let mut m = demand();
    m.type3(13, 3, 7);
    m.location(3, 3, 0b010);
    m.type3(6, 0, 0);
    m.type3(4, 2, 1);
    m.type3(7, 2047, u64::MAX);
    m.type3(9, 3, 2);
    m.type3(15, 1, 1);
    m.type3(14, 5, 31);
    m.closing_mbit();
    both(rt, "unlisted around, demand", &m)
}

// 8, 7, 9, 0 and 11 are unlisted in an accept, 5 in all.
// 13 + 19 + 24 + 26 + 19 + 80 + 18 + 17 + 18 + 2,063 + 1 = 2,298.
fn accept_around(rt: &impl Print) -> io::Result<()> {
    let mut m = accept();
    m.type3(8, 3, 7);
    m.type4(2, 8, 1, 2, 3);
    m.type3(7, 10, 0x3FF);
    m.location(5, 3, 0b100);
    m.type3(9, 64, u64::MAX);
    m.type3(1, 2, 2);
    m.type3(15, 1, 1);
    m.type3(0, 2, 3);
    m.type3(11, 2047, u64::MAX);
    m.closing_mbit();
    both(rt, "unlisted around, accept", &m)
}

// One downlink of 8 + 24 = 32 bits: 16 + 6 + 32 = 54.
fn one_downlink(m: &mut Message) {
    m.list(7, 38, 1);
    m.downlink(1, 2, 0);
    m.address(1001);
}

// 3, 2, 1 and 13 are unlisted in an attach/detach, 4 in all.
// 8 + 19 + 17 + 2,063 + 54 + 20 + 22 + 16 + 1 = 2,220.
fn attach_detach_around(rt: &impl Print) -> io::Result<()> {
    let mut m = attach_detach();
    m.type3(3, 3, 7);
    m.type3(15, 1, 1);
    m.type3(2, 2047, u64::MAX);
    one_downlink(&mut m);
    m.type3(1, 4, 15);
    m.type4(12, 6, 0, 0, 0);
    m.type3(13, 0, 0);
    m.closing_mbit();
    both(rt, "unlisted around, attach/detach", &m)
}

// Elements 13 of 3 bits: 19 bits each.
fn unlisted(m: &mut Message, count: u8) {
    for _ in 0..count {
        m.type3(13, 3, 7);
    }
}

// Before element 4 of 2 bits, between it and element 15 of 1 bit, and behind that: 15 + 18 + 17 + 1 + 19 × count
// = 51 + 19 × count.
fn row(rt: &impl Print, name: &str, before: u8, between: u8, behind: u8) -> io::Result<()> {
    let mut m = demand();
    unlisted(&mut m, before);
    m.type3(4, 2, 1);
    unlisted(&mut m, between);
    m.type3(15, 1, 1);
    unlisted(&mut m, behind);
    m.closing_mbit();
    both(rt, name, &m)
}

fn rows(rt: &impl Print) -> io::Result<()> {
    row(rt, "3 unlisted between", 0, 3, 0)?; // 108
    row(rt, "16 unlisted between", 0, 16, 0)?; // 355
    row(rt, "100 unlisted between", 0, 100, 0)?; // 1,951
    row(rt, "100 unlisted before", 100, 0, 0)?;
    row(rt, "100 unlisted behind", 0, 0, 100)?;
    row(rt, "3, 16 and 100 unlisted", 3, 16, 100) // 51 + 19 × 119 = 2,312
}

// The skipping reading gives 2 where the window ends in the content, in the length or before the next M-bit, the strict one
// 7, having no slot for 13. In the identifier both give 2, as each slot looks at it.
fn leaving(rt: &impl Print) -> io::Result<()> {
    let mut to_length = demand();
    to_length.put(1, 1); // M-bit
    to_length.put(13, 4); // identifier
    let mut to_content = to_length;
    to_content.put(3, 11); // length
    let mut m = to_content;
    m.put(7, 3); // content
    both(rt, "unlisted, no M-bit behind", &m)?;
    both(rt, "unlisted, content cut off", &m.short())?;
    both(rt, "unlisted, length cut off", &to_content.short())?;
    both(rt, "unlisted, identifier cut off", &to_length.short())
}

// Behind element 15 there is no slot left: an M-bit of 1 is 7 to the strict reading; the skipping one needs the
// identifier, of which 0 and 3 bits are inside the window.
fn behind_last(rt: &impl Print) -> io::Result<()> {
    let mut m = demand();
    m.type3(15, 1, 1);
    m.put(1, 1);
    both(rt, "M-bit 1 behind the last slot", &m)?;
    m.put(6, 3);
    both(rt, "M-bit 1 and 3 bits behind the last slot", &m)
}

// Listed identifiers repeated or out of order: 7 in both readings.
fn order(rt: &impl Print, name: &str, first: u64, second: u64) -> io::Result<()> {
    let mut m = demand();
    m.type3(first, 2, 1);
    m.type3(second, 2, 2);
    m.closing_mbit();
    both(rt, name, &m)
}

// The same with an unlisted element between.
fn parted(rt: &impl Print) -> io::Result<()> {
    let mut m = demand();
    m.type3(4, 2, 1);
    m.type3(13, 3, 7);
    m.type3(4, 2, 2);
    m.closing_mbit();
    both(rt, "4, 13 and 4", &m)
}

// In the place of the list stands element 9, of 2 bits: 3 + 18 + 1 = 22. Nested elements are never skipped: 7.
fn nested(rt: &impl Print) -> io::Result<()> {
    let mut m = demand();
    m.location(3, 22, 0b011);
    m.type3(9, 2, 3);
    m.closing_mbit();
    m.closing_mbit();
    both(rt, "unlisted in the location demand", &m)
}

pub(crate) fn trials(rt: &impl Print) -> io::Result<()> {
    demand_around(rt)?;
    accept_around(rt)?;
    attach_detach_around(rt)?;
    rows(rt)?;
    leaving(rt)?;
    behind_last(rt)?;
    order(rt, "4 twice", 4, 4)?;
    order(rt, "15 twice", 15, 15)?;
    order(rt, "9 before 4", 9, 4)?;
    parted(rt)?;
    nested(rt)
}
