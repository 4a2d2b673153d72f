// A demand and an accept with every element once.
use crate::build::{Draft, Message};
use crate::show::strict;
use messages::{ACCEPT, DEMAND};
use std::io;

// 4 + 3 + 1 + 1 + 10 + 1 = 20 bits.
fn demand_fields(m: &mut Message) {
    m.fields(&[
        (2, 4), // type
        (6, 3), // update type
        (1, 1), // append
        (1, 1), // cipher control
        (0x2A5, 10), // ciphering: 677
        (1, 1), // O-bit
    ]);
}

// A type 2 element.
fn type2(m: &mut Message, value: u64, width: usize) {
    m.put(1, 1); // P-bit
    m.put(value, width);
}

// 25 + 4 + 16 + 25 + 25 = 95 bits. The class word A5C3B2 is 1010 0101 1100 0011, version 101, 1 0010; the LA field 4661,
// an odd number, is held as 2330.
fn demand_type2(m: &mut Message) {
    type2(m, 0xA5_C3B2, 24); // class of MS
    type2(m, 5, 3); // saving mode
    type2(m, 4661, 15); // LA
    type2(m, 3_000_001, 24); // SSI
    type2(m, 3_000_002, 24); // address extension
}

// Detached with GSSI and extension, 5 + 48 = 53 bits; attached with a VGSSI, 6 + 24 = 30. The list has 6 + 53 + 30 = 89
// bits, the location demand 3 + 16 + 89 + 1 = 109, with its opening 125.
fn location_demand(m: &mut Message) {
    m.location(3, 109, 0b011);
    m.list(8, 89, 2);
    m.detached(3, 1);
    m.address(3_000_003);
    m.address(3_000_004);
    m.uplink(6, 2);
    m.address(3_000_005);
    m.closing_mbit();
}

// The generic elements have 16 + 2, 16 + 3, 16 + 4 and 16 + 8 bits, 81 in all:
// 20 + 95 + 125 + 81 + 1 = 322.
fn whole_demand(rt: &impl Print) -> io::Result<()> {
    let mut m = Draft::new(DEMAND, 0);
    demand_fields(&mut m);
    demand_type2(&mut m);
    location_demand(&mut m);
    m.type3(4, 2, 1);
    m.type3(9, 3, 2);
    m.type3(11, 4, 3);
    m.type3(15, 8, 0xC4);
    m.closing_mbit();
    strict(rt, "whole demand", &m)
}

// 4 + 3 + 1 = 8 bits.
fn accept_fields(m: &mut Message) {
    m.fields(&[
        (5, 4), // type
        (6, 3), // accept type
        (1, 1), // O-bit
    ]);
}

// 25 + 25 + 17 + 15 + 7 = 89 bits. Energy saving is mode 3, frame 5, multiframe 6 bits.
fn accept_type2(m: &mut Message, mode: u64) {
    type2(m, 3_000_001, 24); // SSI
    type2(m, 3_000_002, 24); // address extension
    type2(m, 0xFFFE, 16); // subscriber class: 65534
    type2(m, mode, 3);
    m.put(18, 5); // frame
    m.put(60, 6); // multiframe
    type2(m, 42, 6); // SCCH
}

// One downlink of 8 + 24 = 32 bits: the list has 6 + 32 = 38, the location accept 3 + 16 + 38 + 1 = 58, with its
// opening 74.
fn location_accept(m: &mut Message) {
    m.location(5, 58, 0b101);
    m.list(7, 38, 1);
    m.downlink(1, 7, 2);
    m.address(3_000_003);
    m.closing_mbit();
}

// 16 + 6 + 10 and 16 + 5 bits, 74, then 16 + 2, 16 + 3, 16 + 6 + 7, 16 + 4 and 16 + 8:
// 32 + 21 + 74 + 18 + 19 + 29 + 20 + 24 = 237.
fn accept_elements(m: &mut Message) {
    m.type4(2, 16, 63, 10, 0x3FF);
    m.type3(3, 5, 0x11);
    location_accept(m);
    m.type3(1, 2, 2);
    m.type3(10, 3, 6);
    m.type4(12, 13, 1, 7, 0x55);
    m.type3(13, 4, 9);
    m.type3(15, 8, 0xC4);
}

// 8 + 89 + 237 + 1 = 335. StayAlive, mode 0, drops frame and multiframe.
fn whole_accept(rt: &impl Print, name: &str, mode: u64) -> io::Result<()> {
    let mut m = Draft::new(ACCEPT, 0);
    accept_fields(&mut m);
    accept_type2(&mut m, mode);
    accept_elements(&mut m);
    m.closing_mbit();
    strict(rt, name, &m)
}

pub(crate) fn trials(rt: &impl Print) -> io::Result<()> {
    whole_demand(rt)?;
    whole_accept(rt, "whole accept", 4)?;
    whole_accept(rt, "whole accept, StayAlive", 0)
}
