// Windows: those that start inside an octet, the limits of question 1, and the octets after the last one consumed from.
use crate::build::{Draft, Message, demand_over};
use crate::show::line;
use messages::{ACCEPT, DEMAND, SKIPPING, STRICT, read, rest};
use std::io;
use std::ops::Range;

// 26 00: a demand of nothing optional, 10 bits.
fn short_demand<const N: usize>(mut m: Draft<N>) -> Draft<N> {
    m.fields(&[
        (2, 4), // type
        (3, 3), // update type
        (0, 3), // append, cipher control, O-bit
    ]);
    m
}

// A demand of SSI only: 10 + 3 + 1 + 24 + 1 + 1 = 40 bits.
fn ssi_demand(mut m: Message, ssi: u64) -> Message {
    m.fields(&[
        (2, 4), // type
        (3, 3), // update type
        (1, 3), // append, cipher control, O-bit
        (1, 4), // P-bits: no class, mode, LA; SSI
        (ssi, 24),
        (0, 2), // P-bit of the extension, closing M-bit
    ]);
    m
}

// The place behind the message, or the first bit with a refusal.
fn placed(rt: &impl Print, octets: &[u8], first: usize, end: usize) -> io::Result<()> {
    let r = read(octets, first, end, DEMAND, STRICT);
    line(
        rt,
        format_args!("shifted from {first} to {end} place {}", r.place),
        octets,
        first..end,
        DEMAND,
        STRICT,
    )
}

// 40 bits from bit `first` of 64 ones on: the window that ends with the message, the one that has ones behind it, and one
// that is a bit short.
fn shifted(rt: &impl Print, first: usize) -> io::Result<()> {
    let m = ssi_demand(Draft::over(u64::MAX, DEMAND, first), 0x5A_A5A5);
    placed(rt, &m.octets, first, m.end())?;
    placed(rt, &m.octets, first, 64)?;
    placed(rt, &m.octets, first, m.short().end())
}

fn demand_line(rt: &impl Print, name: &str, octets: &[u8], window: Range<usize>) -> io::Result<()> {
    line(rt, name, octets, window, DEMAND, STRICT)
}

// 4,096 octets have 32,768 bits: the last 10 hold the message.
fn most_octets(rt: &impl Print) -> io::Result<()> {
    let m = short_demand(Draft::<4096>::new(DEMAND, 32758));
    demand_line(rt, "4096 octets", &m.octets, 32758..32768)?;
    demand_line(rt, "4096 octets, end 32769", &m.octets, 32758..32769)
}

// The most unlisted elements of no content, M-bit 1, identifier 13, length 0 in 16 bits: 15 + 2,047 × 16 + 1 = 32,768
// bits, 4,096 octets to the last bit.
fn most_unlisted(rt: &impl Print) -> io::Result<()> {
    let mut m = Draft::<4096>::new(DEMAND, 0);
    m.put(0x2640 / 2, 15); // 26 40 up to its closing M-bit
    for _ in 0..2047 {
        m.put(0xE800, 16);
    }
    line(
        rt,
        "2047 unlisted, skipping",
        &m.octets,
        0..32768,
        DEMAND,
        SKIPPING,
    )?;
    line(
        rt,
        "2047 unlisted, strict",
        &m.octets,
        0..32768,
        DEMAND,
        STRICT,
    )?;
    line(
        rt,
        "2047 unlisted, one bit short",
        &m.octets,
        0..32767,
        DEMAND,
        SKIPPING,
    )
}

// The message is whole in the first 2 of 4,097 octets: 1.
fn too_many_octets(rt: &impl Print) -> io::Result<()> {
    let m = short_demand(Draft::<4097>::new(DEMAND, 0));
    demand_line(rt, "4097 octets", &m.octets, 0..10)
}

// Of no octets the window of no bits is inside: 2; another is not: 1.
fn no_octets(rt: &impl Print) -> io::Result<()> {
    let octets = [0u8; 0];
    demand_line(rt, "no octets", &octets, 0..0)?;
    demand_line(rt, "no octets, end 1", &octets, 0..1)
}

// 512 octets have 4,096 bits, the first 10 of which hold the message: an end behind them or before the first bit is 1, a
// window of fewer than 10 bits 2.
fn ends(rt: &impl Print, octets: &[u8; 512]) -> io::Result<()> {
    demand_line(rt, "512 octets, end 4096", octets, 0..4096)?;
    demand_line(rt, "512 octets, end 4097", octets, 0..4097)?;
    demand_line(rt, "10 bits", octets, 0..10)?;
    demand_line(rt, "9 bits", octets, 0..9)?;
    demand_line(rt, "first = end = 0", octets, 0..0)?;
    demand_line(rt, "first = end = 4096", octets, 4096..4096)?;
    demand_line(rt, "first 1 after end", octets, 1..0)
}

// Another message or reading is 1, before any field; a message of another type 3.
fn numbers(rt: &impl Print, octets: &[u8; 512]) -> io::Result<()> {
    line(rt, "message 3", octets, 0..10, 3, STRICT)?;
    line(rt, "message 0", octets, 0..10, 0, STRICT)?;
    line(rt, "reading 2", octets, 0..10, DEMAND, 2)?;
    line(rt, "reading 1", octets, 0..10, DEMAND, SKIPPING)?;
    line(
        rt,
        "a demand read as an accept",
        octets,
        0..10,
        ACCEPT,
        STRICT,
    )?;
    line(rt, "message 3 and no bits", octets, 0..0, 3, STRICT)
}

fn question_1(rt: &impl Print) -> io::Result<()> {
    most_octets(rt)?;
    most_unlisted(rt)?;
    too_many_octets(rt)?;
    no_octets(rt)?;
    let m = short_demand(Draft::new(DEMAND, 0));
    ends(rt, &m.octets)?;
    numbers(rt, &m.octets)
}

// How many octets are handed back, and the first of them.
fn rest_line(
    rt: &impl Print,
    name: &str,
    octets: &[u8; 512],
    window: Range<usize>,
    wanted: u64,
) -> io::Result<()> {
    let r = rest(octets, window.start, window.end, DEMAND, wanted);
    print!(rt; "{name}: octets {}", r.len())?;
    if let Some(octet) = r.first() {
        print!(rt; " from {octet:x}")?;
    }
    println!(rt)
}

// The first 8 octets are A0 to A7.
const NUMBERED: u64 = 0xA0A1_A2A3_A4A5_A6A7;

// 10 bits: those from 0 on end inside octet 1, from 6 on at its end, from 7 on inside octet 2. With a refusal, all 512.
fn rest_short(rt: &impl Print, name: &str, window: Range<usize>) -> io::Result<()> {
    let m = short_demand(Draft::over(NUMBERED, DEMAND, window.start));
    rest_line(rt, name, &m.octets, window, STRICT)
}

// 40 bits: those from 4,056 on end with the last octet.
fn rest_none(rt: &impl Print) -> io::Result<()> {
    let m = ssi_demand(Draft::new(DEMAND, 4056), 1);
    rest_line(
        rt,
        "rest, at the last octet's end",
        &m.octets,
        4056..4096,
        STRICT,
    )
}

// Unlisted 13 of 3 bits: 15 + 19 + 1 = 35 bits end inside octet 4; the strict reading refuses.
fn rest_skipped(rt: &impl Print) -> io::Result<()> {
    let mut m = demand_over(NUMBERED);
    m.type3(13, 3, 7);
    m.closing_mbit();
    rest_line(rt, "rest, one skipped", &m.octets, 0..m.end(), SKIPPING)?;
    rest_line(
        rt,
        "rest, refused by the strict reading",
        &m.octets,
        0..m.end(),
        STRICT,
    )
}

fn rests(rt: &impl Print) -> io::Result<()> {
    rest_short(rt, "rest, inside an octet", 0..10)?;
    rest_short(rt, "rest, inside an octet of a wider window", 0..64)?;
    rest_short(rt, "rest, at an octet's end", 6..16)?;
    rest_short(rt, "rest, one bit further", 7..17)?;
    rest_short(rt, "rest, one bit short", 0..9)?;
    rest_short(rt, "rest, one bit short from bit 8 on", 8..17)?;
    rest_short(rt, "rest, end 4097", 0..4097)?;
    rest_none(rt)?;
    rest_skipped(rt)
}

pub(crate) fn trials(rt: &impl Print) -> io::Result<()> {
    for first in 1..8 {
        shifted(rt, first)?;
    }
    question_1(rt)?;
    rests(rt)
}
