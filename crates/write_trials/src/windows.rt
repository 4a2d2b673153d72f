// Windows: just long enough, one bit short and longer; those that start inside an octet; the limits of question 1.
use crate::lists::{most_downlinks, uplinks_of};
use crate::records::{
    Accept, AttachDetach, Demand, Message, accept_list, attach_detach_list, demand_list, with,
};
use crate::show::{line, line_512, window};
use crate::values::{OVER_24, address, downlink_at, downlinks, gssi, uplink, uplink_at, uplinks};
use messages::{DEMAND, OwnRecord};
use std::io;
use std::ops::Range;

// Windows of no bits, one that is a bit short, and one that just holds the message.
fn rooms(rt: &impl Print, name: &str, enough: usize, m: impl Message) -> io::Result<()> {
    for bits in [0, enough.saturating_sub(1), enough] {
        window(rt, format_args!("{name} in {bits} bits"), 0..bits, m)?;
    }
    Ok(())
}

pub(crate) fn lengths(rt: &impl Print) -> io::Result<()> {
    rooms(rt, "demand", 10, Demand::start())?;
    rooms(rt, "accept", 8, Accept::start())?;
    rooms(rt, "attach/detach", 8, AttachDetach::start())?;
    let one = uplinks(1, [uplink_at(gssi(1)); 63]);
    rooms(rt, "uplink", 88, demand_list(one))
}

fn placed(rt: &impl Print, name: &str, bits: Range<usize>, m: impl Message) -> io::Result<()> {
    let first = bits.start;
    let end = bits.end;
    window(rt, format_args!("{name}, bits {first} to {end}"), bits, m)
}

// Just long enough, and one bit short.
fn both(rt: &impl Print, name: &str, bits: Range<usize>, m: impl Message) -> io::Result<()> {
    let short = bits.start..bits.end.saturating_sub(1);
    placed(rt, name, bits, m)?;
    placed(rt, name, short, m)
}

// Just long enough, one bit short, and longer.
fn shifts(rt: &impl Print) -> io::Result<()> {
    let d = with(|d: &mut Demand| d.ssi = Some(1).into());
    for first in 1..8 {
        both(rt, "demand, SSI 1", first..first + 40, d)?;
        placed(rt, "demand, SSI 1", first..4096, d)?;
    }
    Ok(())
}

fn one_group(rt: &impl Print) -> io::Result<()> {
    both(rt, "accept, nothing optional", 4088..4096, Accept::start())?;
    let detached = uplinks(1, [uplink(None, Some(3), gssi(1)); 63]);
    both(rt, "uplink, detached", 5..92, demand_list(detached))?;
    let whole_address = downlinks(1, [downlink_at(address(true, true, true)); 63]);
    both(
        rt,
        "downlink, GSSI and extension and VGSSI, nested",
        3..139,
        accept_list(whole_address),
    )
}

fn many_groups(rt: &impl Print) -> io::Result<()> {
    let short = demand_list(uplinks_of(63, false));
    both(rt, "63 uplinks of 30 bits", 3..1951, short)?;
    let long = demand_list(uplinks_of(37, true));
    both(rt, "37 uplinks of 54 bits", 7..2063, long)?;
    let down = attach_detach_list(most_downlinks());
    both(rt, "attach/detach, 63 downlinks of 32 bits", 1..2048, down)
}

// 258 is 2 in its low 8 bits.
fn unknown(rt: &impl Print) -> io::Result<()> {
    for message in [0, 3, 4, 258, u64::MAX] {
        let name = format_args!("message {message}");
        line_512(rt, name, 0..10, message, Demand::start().alone())?;
    }
    Ok(())
}

fn lent(rt: &impl Print, octets: &mut [u8], bits: Range<usize>) -> io::Result<()> {
    let count = octets.len();
    let first = bits.start;
    let end = bits.end;
    line(
        rt,
        format_args!("{count} octets, bits {first} to {end}"),
        octets,
        bits,
        DEMAND,
        Demand::start().alone(),
    )
}

fn question_1(rt: &impl Print) -> io::Result<()> {
    unknown(rt)?;
    lent(rt, &mut [0xFF; 4096], 32758..32768)?;
    lent(rt, &mut [0xFF; 4096], 32758..32769)?;
    lent(rt, &mut [0xFF; 4097], 0..10)?;
    lent(rt, &mut [0xFF; 512], 0..4096)?;
    lent(rt, &mut [0xFF; 512], 0..4097)?;
    lent(rt, &mut [0xFF; 512], 0..usize::MAX)?;
    lent(rt, &mut [0xFF; 512], 1..0)?;
    lent(rt, &mut [0xFF; 512], usize::MAX..usize::MAX)?;
    lent(rt, &mut [0xFF; 512], 4096..4096)?;
    lent(rt, &mut [], 0..0)?;
    lent(rt, &mut [], 0..1)?;
    let wide = with(|d: &mut Demand| d.ssi = Some(OVER_24).into());
    placed(rt, "demand, SSI 2^24", 1..0, wide)
}

pub(crate) fn places(rt: &impl Print) -> io::Result<()> {
    shifts(rt)?;
    one_group(rt)?;
    many_groups(rt)?;
    question_1(rt)
}
