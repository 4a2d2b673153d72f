// The three messages as they are written, and the writing call on octets and a window (document 01, 'A writing call').
#![tactic(auto)]

pub mod d_attach_detach_group_identity;
pub mod d_location_update_accept;
mod group_identity_downlink;
mod group_identity_location_accept;
mod group_identity_location_demand;
mod group_list;
mod parts;
mod questions;
mod typed_pdu_fields;
pub mod u_location_update_demand;

ghost use Rattle.std.specs.Prelude.{◌≡◌, Ok};
ghost use Rattle.bits.specs.Placed.{as_moved};
ghost use Rattle.bits.specs.PduParseError.{bad_call};
ghost use Rattle.messages.specs.Calls.{message_asked, message_bits, written_as, octets_as, writing, writing_of, octets_written};
ghost use Rattle.messages.specs.RoundTrip.{RoundTrip};
ghost use Rattle.bits.specs.Written.{written};
ghost use Rattle.message_writers.specs.Writes.{write_message, Behind, writing_by};

use bits::bitbuffer::{Cursor, Moved};
use bits::pdu_parse_error::PduParseErr;
use messages::{Message, Pdu, Record, Writing, is_good_window, message_named};

// A message that can be written.
pub trait PduWriter: Pdu {
    // The message, if it passes the questions; a refusal changes nothing.
    fn to_bitbuf(self, c: Cursor, octets: &mut [u8]) -> Moved
        ensures { written octets.new (as_moved result) ≡ write_message (message_asked Self.message (Self.of self)) (message_bits Self.message (Self.of self)) octets.old c };
}

// The answer of what was written from `first` on.
fn answered(first: usize, m: Moved) -> Writing
    requires { Behind first (as_moved m) }
    ensures { result ≡ writing_by first (as_moved m) }
{
    match m {
        Ok(c) => Writing {
            verdict: Ok(()),
            written: c.at - first,
        },
        Err(e) => Writing {
            verdict: Err(e),
            written: 0,
        },
    }
}

// The answer of a call that does not pass question 1.
fn refused() -> Writing
    ensures { result ≡ writing_of (Some bad_call) 0 }
{
    Writing {
        verdict: Err(PduParseErr::BadCall),
        written: 0,
    }
}

// A writing call of a message's own record; `c` is the window.
pub fn write_as<M: PduWriter>(octets: &mut [u8], c: Cursor, d: M) -> Writing
    ensures answer { result ≡ written_as M.message octets.old c.at c.end (M.of d) }
    ensures octets { octets.new ≡ octets_as M.message octets.old c.at c.end (M.of d) }
{
    if is_good_window(octets.len(), c) {
        return answered(c.at, d.to_bitbuf(c, octets));
    }
    refused()
}

// A writing call: the octets lent, the window's first and end bit, the message's type number, the record. The message goes to
// the window's front, and every other bit is kept; a refusal changes nothing. The message is a number, as in a reading call.
pub fn write(octets: &mut [u8], first: usize, end: usize, message: u64, held: Record) -> Writing
    ensures answer { result ≡ writing message octets.old first end held }
    ensures octets { octets.new ≡ octets_written message octets.old first end held }
    ensures round_trip { result.verdict ≡ Ok tt → RoundTrip message octets.old first end held result.written octets.new }
{
    let c = Cursor { at: first, end };
    match message_named(message) {
        Some(Message::Demand) => write_as(octets, c, held.demand),
        Some(Message::Accept) => write_as(octets, c, held.accept),
        Some(Message::AttachDetach) => write_as(octets, c, held.attach_detach),
        None => refused(),
    }
}
