// The library's calls: reading into a flat buffer, and rewriting (document 01, 'What must change shape'). The crate exports_c
// exports them for linking.
#![tactic(auto)]

pub mod flat;

ghost use Rattle.std.specs.Prelude.{◌≡◌, ◌≤◌};
ghost use Rattle.messages.specs.Calls.{message_of, reading, called};
ghost use Rattle.exports.specs.Flat.{numbered, read_result, read_buffer};
ghost use Rattle.exports.specs.Rewrite.{rewrite_result, rewrite_octets};

use bits::bitbuffer::Cursor;
use bits::pdu_parse_error::PduParseErr;
use flat::Flat;
use message_writers::{PduWriter, write_as};
use messages::d_attach_detach_group_identity::DAttachDetachGroupIdentity;
use messages::d_location_update_accept::DLocationUpdateAccept;
use messages::u_location_update_demand::ULocationUpdateDemand;
use messages::{Message, SKIPPING, STRICT, is_good_call, message_named};

// A call's answer: the bits consumed or written, or the refusal.
type Bits = Result<u32, PduParseErr>;

// The answer as one number: 64 × the bits, or the refusal's number.
fn numbered(r: Bits) -> u64
    ensures { result ≡ numbered r }
{
    match r {
        Ok(bits) => 64 * bits as u64,
        Err(e) => e.number() as u64,
    }
}

// Reads a message in a window that passed question 1 into a buffer.
fn read_into<M: Flat>(octets: &[u8], c: Cursor, skipping: bool, flat: &mut [u8]) -> Bits
    requires { (c.at ≤ c.end) × (c.end ≤ 32768) }
    ensures result { numbered result ≡ read_result (Some M.message) (called M.message skipping octets.now c.at c.end) flat.old }
    ensures buffer { flat.new ≡ read_buffer (Some M.message) (called M.message skipping octets.now c.at c.end) flat.old }
{
    let a = M::from_bitbuf(c, octets, skipping);
    let (n, c1) = a.verdict?;
    if a.record.fill(flat, n) {
        return Ok((c1.at - c.at) as u32);
    }
    Err(PduParseErr::WindowTooShort)
}

// The reading call, by the message.
fn read_call(message: u64, wanted: u64, octets: &[u8], c: Cursor, flat: &mut [u8]) -> Bits
    ensures result { numbered result ≡ read_result (message_of message) (reading message wanted octets.now c.at c.end) flat.old }
    ensures buffer { flat.new ≡ read_buffer (message_of message) (reading message wanted octets.now c.at c.end) flat.old }
{
    if is_good_call(octets.len(), c, wanted) {
        let skipping = wanted == SKIPPING;
        return match message_named(message) {
            Some(Message::Demand) => {
                read_into::<ULocationUpdateDemand>(octets, c, skipping, flat)
            }
            Some(Message::Accept) => {
                read_into::<DLocationUpdateAccept>(octets, c, skipping, flat)
            }
            Some(Message::AttachDetach) => {
                read_into::<DAttachDetachGroupIdentity>(octets, c, skipping, flat)
            }
            None => Err(PduParseErr::BadCall),
        };
    }
    Err(PduParseErr::BadCall)
}

// A reading call into a flat buffer: 64 × the bits consumed, plus the refusal's number.
pub fn tetra_mm_read(
    message: u64,
    wanted: u64,
    octets: &[u8],
    first: u64,
    end: u64,
    flat: &mut [u8],
) -> u64
    ensures result { result ≡ read_result (message_of message) (reading message wanted octets.now first end) flat.old }
    ensures buffer { flat.new ≡ read_buffer (message_of message) (reading message wanted octets.now first end) flat.old }
{
    let c = Cursor {
        at: first as usize,
        end: end as usize,
    };
    numbered(read_call(message, wanted, octets, c, flat))
}

// Rewrites a message: read in one window, `c`, and written to another one, `to`.
fn rewrite<M: PduWriter>(octets: &[u8], c: Cursor, out: &mut [u8], to: Cursor) -> Bits
    ensures result { numbered result ≡ rewrite_result (Some M.message) octets.now c.at c.end out.old to.at to.end }
    ensures octets { out.new ≡ rewrite_octets (Some M.message) octets.now c.at c.end out.old to.at to.end }
{
    if is_good_call(octets.len(), c, STRICT) {
        let a = M::from_bitbuf(c, octets, false);
        a.verdict?;
        let w = write_as(out, to, a.record);
        w.verdict?;
        return Ok(w.written as u32);
    }
    Err(PduParseErr::BadCall)
}

// The rewriting, by the message.
fn rewrite_call(message: u64, octets: &[u8], c: Cursor, out: &mut [u8], to: Cursor) -> Bits
    ensures result { numbered result ≡ rewrite_result (message_of message) octets.now c.at c.end out.old to.at to.end }
    ensures octets { out.new ≡ rewrite_octets (message_of message) octets.now c.at c.end out.old to.at to.end }
{
    match message_named(message) {
        Some(Message::Demand) => rewrite::<ULocationUpdateDemand>(octets, c, out, to),
        Some(Message::Accept) => rewrite::<DLocationUpdateAccept>(octets, c, out, to),
        Some(Message::AttachDetach) => rewrite::<DAttachDetachGroupIdentity>(octets, c, out, to),
        None => Err(PduParseErr::BadCall),
    }
}

// A rewriting: the strict reading in one window, and its record written to a second; 64 × the bits written, plus the number of
// the first refusal met.
pub fn tetra_mm_rewrite(
    message: u64,
    octets: &[u8],
    first: u64,
    end: u64,
    out: &mut [u8],
    out_first: u64,
    out_end: u64,
) -> u64
    ensures result { result ≡ rewrite_result (message_of message) octets.now first end out.old out_first out_end }
    ensures octets { out.new ≡ rewrite_octets (message_of message) octets.now first end out.old out_first out_end }
{
    let c = Cursor {
        at: first as usize,
        end: end as usize,
    };
    let to = Cursor {
        at: out_first as usize,
        end: out_end as usize,
    };
    numbered(rewrite_call(message, octets, c, out, to))
}
