// For benchmarks: one field read, one field written, and each of the messages read, written, and written over and over.
#![tactic(auto)]

ghost use Rattle.std.specs.Prelude.{◌≡◌};
ghost use Rattle.bits.specs.Reader.{word};
ghost use Rattle.bits.specs.Placed.{at as atCursor, refusal};
ghost use Rattle.bits.specs.Written.{write_field};
ghost use Rattle.std.specs.Prelude.{Some};
ghost use Rattle.messages.specs.Calls.{alone, reading_as, reading, written_as, octets_as};
ghost use Rattle.messages.specs.declared.Message.TheVariants as M;
ghost use Rattle.measure.specs.Measured.{value_or_refusal, consumed_and_refusal};
ghost use Rattle.measure.specs.Repeated.{repeated};

use bits::bitbuffer::Cursor;
use bits::pdu_parse_error::PduParseErr;
use message_writers::{PduWriter, write_as};
use messages::d_attach_detach_group_identity::DAttachDetachGroupIdentity;
use messages::d_location_update_accept::DLocationUpdateAccept;
use messages::u_location_update_demand::ULocationUpdateDemand;
use messages::{Pdu, Record, SKIPPING, is_good_call, read};

// The value, or the refusal's number.
#[unsafe(no_mangle)]
pub extern "C" fn measure_read(octets: &[u8], at: usize, end: usize, width: usize) -> u64
    ensures { result ≡ value_or_refusal (atCursor (word 64 width) octets.now (record { at = at; end = end })) }
{
    let c = Cursor { at, end };
    match c.read::<u64>(octets, width) {
        Ok((v, _)) => v,
        Err(e) => e.number() as u64,
    }
}

// 0, or the refusal's number.
#[unsafe(no_mangle)]
pub extern "C" fn measure_write(
    octets: &mut [u8],
    at: usize,
    end: usize,
    value: u64,
    width: usize,
) -> u64
    ensures answer { result ≡ refusal (write_field width value octets.old (record { at = at; end = end })).answer }
    ensures octets { octets.new ≡ (write_field width value octets.old (record { at = at; end = end })).octets }
{
    let c = Cursor { at, end };
    match c.write(octets, value, width) {
        Ok(_) => 0,
        Err(e) => e.number() as u64,
    }
}

// A message read: 64 times the bits consumed plus the refusal's number. The record is made and left behind: each message's reader
// has a second caller, `measure_record`, and so is a function of its own in the machine code.
fn measured<M: Pdu>(octets: &[u8], c: Cursor, wanted: u64) -> u64
    ensures { result ≡ consumed_and_refusal (reading_as (Some M.message) wanted octets.now c.at c.end) }
{
    if is_good_call(octets.len(), c, wanted) {
        let a = M::from_bitbuf(c, octets, wanted == SKIPPING);
        return match a.verdict {
            Ok((_, c1)) => 64 * (c1.at - c.at) as u64,
            Err(e) => e.number() as u64,
        };
    }
    PduParseErr::BadCall.number() as u64
}

#[unsafe(no_mangle)]
pub extern "C" fn measure_read_demand(octets: &[u8], first: usize, end: usize, wanted: u64) -> u64
    ensures { result ≡ consumed_and_refusal (reading_as (Some M.Demand) wanted octets.now first end) }
{
    measured::<ULocationUpdateDemand>(octets, Cursor { at: first, end }, wanted)
}

#[unsafe(no_mangle)]
pub extern "C" fn measure_read_accept(octets: &[u8], first: usize, end: usize, wanted: u64) -> u64
    ensures { result ≡ consumed_and_refusal (reading_as (Some M.Accept) wanted octets.now first end) }
{
    measured::<DLocationUpdateAccept>(octets, Cursor { at: first, end }, wanted)
}

#[unsafe(no_mangle)]
pub extern "C" fn measure_read_attach_detach(
    octets: &[u8],
    first: usize,
    end: usize,
    wanted: u64,
) -> u64
    ensures { result ≡ consumed_and_refusal (reading_as (Some M.AttachDetach) wanted octets.now first end) }
{
    measured::<DAttachDetachGroupIdentity>(octets, Cursor { at: first, end }, wanted)
}

// The record of a message read, from which the messages below are written.
#[unsafe(no_mangle)]
pub extern "C" fn measure_record(
    octets: &[u8],
    first: usize,
    end: usize,
    message: u64,
    wanted: u64,
) -> Record
    ensures { result ≡ (reading message wanted octets.now first end).«record» }
{
    read(octets, first, end, message, wanted).record
}

// A message written: the number of bits, 0 with a refusal.
fn written<M: PduWriter>(d: M, octets: &mut [u8], c: Cursor) -> u64
    ensures bits { result ≡ (written_as M.message octets.old c.at c.end (M.of d)).written }
    ensures octets { octets.new ≡ octets_as M.message octets.old c.at c.end (M.of d) }
{
    write_as(octets, c, d).written as u64
}

#[unsafe(no_mangle)]
pub extern "C" fn measure_write_demand(
    d: ULocationUpdateDemand,
    octets: &mut [u8],
    first: usize,
    end: usize,
) -> u64
    ensures bits { result ≡ (written_as M.Demand octets.old first end (alone M.Demand d)).written }
    ensures octets { octets.new ≡ octets_as M.Demand octets.old first end (alone M.Demand d) }
{
    written(d, octets, Cursor { at: first, end })
}

#[unsafe(no_mangle)]
pub extern "C" fn measure_write_accept(
    d: DLocationUpdateAccept,
    octets: &mut [u8],
    first: usize,
    end: usize,
) -> u64
    ensures bits { result ≡ (written_as M.Accept octets.old first end (alone M.Accept d)).written }
    ensures octets { octets.new ≡ octets_as M.Accept octets.old first end (alone M.Accept d) }
{
    written(d, octets, Cursor { at: first, end })
}

#[unsafe(no_mangle)]
pub extern "C" fn measure_write_attach_detach(
    d: DAttachDetachGroupIdentity,
    octets: &mut [u8],
    first: usize,
    end: usize,
) -> u64
    ensures bits { result ≡ (written_as M.AttachDetach octets.old first end (alone M.AttachDetach d)).written }
    ensures octets { octets.new ≡ octets_as M.AttachDetach octets.old first end (alone M.AttachDetach d) }
{
    written(d, octets, Cursor { at: first, end })
}

// A message written `times` times, each time by a writing call: the number of bits that the last one wrote.
fn writes<M: PduWriter>(d: M, octets: &mut [u8], c: Cursor, times: usize) -> u64
    ensures bits { result ≡ (repeated M.message c.at c.end (M.of d) times octets.old).bits }
    ensures octets { octets.new ≡ (repeated M.message c.at c.end (M.of d) times octets.old).octets }
{
    let mut bits: u64 = 0;
    for _ in 0..times {
        let w = write_as(octets, c, d);
        bits = w.written as u64;
    }
    bits
}

#[unsafe(no_mangle)]
pub extern "C" fn measure_writes_demand(
    d: ULocationUpdateDemand,
    octets: &mut [u8],
    first: usize,
    end: usize,
    times: usize,
) -> u64
    ensures bits { result ≡ (repeated M.Demand first end (alone M.Demand d) times octets.old).bits }
    ensures octets { octets.new ≡ (repeated M.Demand first end (alone M.Demand d) times octets.old).octets }
{
    writes(d, octets, Cursor { at: first, end }, times)
}

#[unsafe(no_mangle)]
pub extern "C" fn measure_writes_accept(
    d: DLocationUpdateAccept,
    octets: &mut [u8],
    first: usize,
    end: usize,
    times: usize,
) -> u64
    ensures bits { result ≡ (repeated M.Accept first end (alone M.Accept d) times octets.old).bits }
    ensures octets { octets.new ≡ (repeated M.Accept first end (alone M.Accept d) times octets.old).octets }
{
    writes(d, octets, Cursor { at: first, end }, times)
}

#[unsafe(no_mangle)]
pub extern "C" fn measure_writes_attach_detach(
    d: DAttachDetachGroupIdentity,
    octets: &mut [u8],
    first: usize,
    end: usize,
    times: usize,
) -> u64
    ensures bits { result ≡ (repeated M.AttachDetach first end (alone M.AttachDetach d) times octets.old).bits }
    ensures octets { octets.new ≡ (repeated M.AttachDetach first end (alone M.AttachDetach d) times octets.old).octets }
{
    writes(d, octets, Cursor { at: first, end }, times)
}
