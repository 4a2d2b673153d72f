// Lists of groups: their most entries, their lengths, an empty list against an absent one, the reserved bits.
use crate::build::{Message, accept, attach_detach, demand};
use crate::show::strict;
use std::io;

// 63 groups of class of usage 5 with the GSSIs 1001 to 1063: 63 × (6 + 24) = 1,890 bits; the list has 6 + 1,890 = 1,896,
// the location demand 3 + 16 + 1,896 + 1 = 1,916, and the message 15 + 16 + 1,916 + 1 = 1,948. With a length that is not
// so: 6.
fn uplinks_63(rt: &impl Print, structure: u64, listed: u64) -> io::Result<()> {
    let mut m = demand();
    m.location(3, structure, 0b011);
    m.list(8, listed, 63);
    for gssi in 1001..=1063 {
        m.uplink(5, 0);
        m.address(gssi);
    }
    m.closing_mbit();
    m.closing_mbit();
    strict(
        rt,
        format_args!("63 uplinks of 30 bits, lengths {structure} and {listed}"),
        &m,
    )
}

// 37 groups with the GSSIs 1001 to 1037 and the extensions 2001 to 2037: 37 × (6 + 24 + 24) = 1,998 bits; the list has
// 6 + 1,998 = 2,004, the location demand 3 + 16 + 2,004 + 1 = 2,024, and the message 15 + 16 + 2,024 + 1 = 2,056.
fn uplinks_37(rt: &impl Print) -> io::Result<()> {
    let mut m = demand();
    m.location(3, 2024, 0b011);
    m.list(8, 2004, 37);
    for i in 1..=37 {
        m.uplink(5, 1);
        m.address(1000 + i);
        m.address(2000 + i);
    }
    m.closing_mbit();
    m.closing_mbit();
    strict(rt, "37 uplinks of 54 bits", &m)
}

// Attached without an address, 6 bits; detached with a GSSI, 5 + 24 = 29. The list has 6 + 6 + 29 = 41 bits, the
// location demand 3 + 16 + 41 + 1 = 61, and the message 15 + 16 + 61 + 1 = 93.
fn uplink_forms(rt: &impl Print) -> io::Result<()> {
    let mut m = demand();
    m.location(3, 61, 0b001);
    m.list(8, 41, 2);
    m.uplink(7, 3);
    m.detached(2, 0);
    m.address(0xFF_FFFF);
    m.closing_mbit();
    m.closing_mbit();
    strict(rt, "uplink without address", &m)
}

// A message that may hold a structure with a list, up to its first M-bit; and how it holds them.
#[derive(Clone, Copy)]
struct Nested {
    opened: Message,
    structure: u64,
    bits: u64, // reserved and mode, or accept/reject and reserved
    list: u64,
}

// A demand of no location demand has 15 + 1 = 16 bits. One with O-bit 0 has 15 + 16 + 3 + 1 = 35; with O-bit 1 and
// M-bit 0 one more, 36; with an empty list the location demand has 3 + 16 + 6 + 1 = 26, the message 15 + 16 + 26 + 1 = 58.
// An accept is 2 bits shorter: 14, 33, 34, 56.
fn nested_lists(rt: &impl Print, name: &str, n: Nested) -> io::Result<()> {
    let mut m = n.opened;
    m.closing_mbit();
    strict(rt, format_args!("no {name}"), &m)?;
    let mut m = n.opened;
    m.location(n.structure, 3, n.bits);
    m.closing_mbit();
    strict(rt, format_args!("{name}, O-bit 0"), &m)?;
    let mut m = n.opened;
    m.location(n.structure, 4, n.bits | 1);
    m.put(0, 2);
    strict(rt, format_args!("{name}, M-bit 0"), &m)?;
    let mut m = n.opened;
    m.location(n.structure, 26, n.bits | 1);
    m.list(n.list, 6, 0);
    m.put(0, 2);
    strict(rt, format_args!("{name}, empty list"), &m)
}

// Without the list 8 + 1 = 9 bits; with an empty one 8 + 16 + 6 + 1 = 31.
fn attach_detach_lists(rt: &impl Print) -> io::Result<()> {
    let mut m = attach_detach();
    m.closing_mbit();
    strict(rt, "attach/detach, no list", &m)?;
    let mut m = attach_detach();
    m.list(7, 6, 0);
    m.closing_mbit();
    strict(rt, "attach/detach, empty list", &m)
}

// A length of 5 is one less than the count that it must hold: 5.
fn short_lists(rt: &impl Print) -> io::Result<()> {
    let mut m = demand();
    m.location(3, 25, 0b011);
    m.list(8, 5, 0);
    m.put(0, 2);
    strict(rt, "uplinks of length 5", &m)?;
    let mut m = attach_detach();
    m.list(7, 5, 0);
    m.closing_mbit();
    strict(rt, "downlinks of length 5", &m)
}

// The location demand's reserved bit must be 0: 4. That of the location accept may be 1: 13 + 16 + 3 + 1 = 33 bits.
fn reserved_bits(rt: &impl Print) -> io::Result<()> {
    let mut m = demand();
    m.location(3, 3, 0b110);
    m.closing_mbit();
    strict(rt, "location demand, reserved bit 1", &m)?;
    let mut m = accept();
    m.location(5, 3, 0b010);
    m.closing_mbit();
    strict(rt, "location accept, reserved bit 1", &m)
}

// Groups of lifetime 2, class of usage 4 and the GSSIs 1001, 1002, ..: 8 + 24 = 32 bits each.
fn downlinks_of_32(m: &mut Message, count: u8) {
    for i in 0..count {
        m.downlink(2, 4, 0);
        m.address(1001 + u64::from(i));
    }
}

// GSSI, extension and VGSSI: 72 bits.
fn all_addresses(m: &mut Message) {
    m.address(0xAB_CDEF);
    m.address(0x12_3456);
    m.address(0x80_0001);
}

// Attached, with all of GSSI, extension and VGSSI: 8 + 72 = 80 bits. The list has 6 + 80 = 86, the message
// 8 + 16 + 86 + 1 = 111.
fn downlink_1(rt: &impl Print) -> io::Result<()> {
    let mut m = attach_detach();
    m.list(7, 86, 1);
    m.downlink(3, 6, 3);
    all_addresses(&mut m);
    m.closing_mbit();
    strict(rt, "1 downlink", &m)
}

// 15 of 32 bits, and one detached with all addresses, 5 + 72 = 77. The list has 6 + 15 × 32 + 77 = 563 bits, the message
// 8 + 16 + 563 + 1 = 588.
fn downlinks_16(rt: &impl Print) -> io::Result<()> {
    let mut m = attach_detach();
    m.list(7, 563, 16);
    downlinks_of_32(&mut m, 15);
    m.detached(1, 3);
    all_addresses(&mut m);
    m.closing_mbit();
    strict(rt, "16 downlinks", &m)
}

// The list has 6 + 63 × 32 = 2,022 bits, the message 8 + 16 + 2,022 + 1 = 2,047. With a length that is not so: 6.
fn downlinks_63(rt: &impl Print, listed: u64) -> io::Result<()> {
    let mut m = attach_detach();
    m.list(7, listed, 63);
    downlinks_of_32(&mut m, 63);
    m.closing_mbit();
    strict(rt, format_args!("63 downlinks, length {listed}"), &m)
}

// The same list in a location accept: 3 + 16 + 2,022 + 1 = 2,042 bits, the message 13 + 16 + 2,042 + 1 = 2,072.
fn accept_downlinks_63(rt: &impl Print, structure: u64) -> io::Result<()> {
    let mut m = accept();
    m.location(5, structure, 0b001);
    m.list(7, 2022, 63);
    downlinks_of_32(&mut m, 63);
    m.closing_mbit();
    m.closing_mbit();
    strict(
        rt,
        format_args!("63 downlinks in an accept, length {structure}"),
        &m,
    )
}

pub(crate) fn trials(rt: &impl Print) -> io::Result<()> {
    uplinks_63(rt, 1916, 1896)?;
    uplinks_63(rt, 1915, 1896)?;
    uplinks_63(rt, 1917, 1896)?;
    uplinks_63(rt, 1916, 1895)?;
    uplinks_63(rt, 1916, 1897)?;
    uplinks_37(rt)?;
    uplink_forms(rt)?;
    list_trials(rt)?;
    downlink_trials(rt)
}

fn list_trials(rt: &impl Print) -> io::Result<()> {
    let uplinks = Nested {
        opened: demand(),
        structure: 3,
        bits: 0b010,
        list: 8,
    };
    let downlinks = Nested {
        opened: accept(),
        structure: 5,
        bits: 0b100,
        list: 7,
    };
    nested_lists(rt, "location demand", uplinks)?;
    nested_lists(rt, "location accept", downlinks)?;
    attach_detach_lists(rt)?;
    short_lists(rt)?;
    reserved_bits(rt)
}

fn downlink_trials(rt: &impl Print) -> io::Result<()> {
    downlink_1(rt)?;
    downlinks_16(rt)?;
    downlinks_63(rt, 2022)?;
    downlinks_63(rt, 2021)?;
    downlinks_63(rt, 2023)?;
    accept_downlinks_63(rt, 2042)?;
    accept_downlinks_63(rt, 2041)?;
    accept_downlinks_63(rt, 2043)
}
