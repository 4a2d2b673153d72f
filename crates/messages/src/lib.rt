// The three messages, and the reading calls on octets and a window (document 01, 'A reading call').
#![tactic(auto)]

pub mod d_attach_detach_group_identity;
pub mod d_location_update_accept;
pub mod u_location_update_demand;

ghost use Rattle.std.specs.Prelude.{◌≡◌, ◌≤◌};
ghost use Rattle.bits.specs.Placed.{halted, at};
ghost use Rattle.messages.specs.Calls.{no_record, message_of, read_message, good_window, good_call, no_reading, reading, behind, accepted, called};
ghost use Rattle.messages.specs.declared.Record.{Record};
ghost use Rattle.messages.specs.declared.Message.{Message};
ghost use Rattle.messages.specs.MessageAnswers.{message_answer, Kept};

use bits::bitbuffer::{Cursor, Read};
use bits::pdu_parse_error::PduParseErr;
use d_attach_detach_group_identity::DAttachDetachGroupIdentity;
use d_location_update_accept::DLocationUpdateAccept;
use elements::mm_pdu_type_dl::{D_ATTACH_DETACH_GROUP_IDENTITY, D_LOCATION_UPDATE_ACCEPT};
use elements::mm_pdu_type_ul::U_LOCATION_UPDATE_DEMAND;
use u_location_update_demand::ULocationUpdateDemand;

// The record of a call: the message's own is filled, the others stay absent and zero.
#[repr(C)]
#[derive(Clone, Copy)]
pub struct Record {
    pub demand: ULocationUpdateDemand,
    pub accept: DLocationUpdateAccept,
    pub attach_detach: DAttachDetachGroupIdentity,
}

// The count skipped and the place, or the refusal; and the message's own record beside it. Apart from `Judged`: one struct for both
// would have two parameters, and no name for the record.
#[derive(Clone, Copy)]
pub struct MessageRead<M> {
    pub verdict: Read<usize>,
    pub record: M,
}

// What stands before a message's listed elements: its fields and type 2 elements, and the O-bit between them.
#[derive(Clone, Copy)]
pub struct Headed<H> {
    pub head: H,
    pub obit: u8,
}

// A message's own record.
pub trait OwnRecord: Copy {
    // how it is taken out of a call's record, and put into one
    ghost own: { Record → Self };

    ghost of: { Self → Record };

    // All absent and zero.
    fn none() -> Self
        ensures { result ≡ own no_record };

    // The record of a call that holds it alone.
    fn alone(self) -> Record
        ensures { result ≡ of self };
}

// One of the three messages.
pub trait Pdu: OwnRecord {
    ghost message: { Message };

    // The message at a cursor.
    fn from_bitbuf(c: Cursor, octets: &[u8], skipping: bool) -> MessageRead<Self>
        ensures { result ≡ message_answer Self.own (at (read_message message skipping) octets.now c) };

    ghost kept: { Kept message Self.own Self.of };
}

pub type Verdict = Result<(), PduParseErr>;

// The answer of a reading call: a refusal has the first bit as its place, counts of 0 and the empty record.
#[derive(Clone, Copy)]
pub struct Reading {
    pub verdict: Verdict,
    pub place: usize,
    pub consumed: usize,
    pub skipped: usize,
    pub record: Record,
}

// The answer of a writing call: the number of bits written, which document 01 has as 0 beside a refusal.
#[derive(Clone, Copy)]
pub struct Writing {
    pub verdict: Verdict,
    pub written: usize,
}

// The messages' type numbers.
pub const DEMAND: u64 = U_LOCATION_UPDATE_DEMAND as u64;

pub const ACCEPT: u64 = D_LOCATION_UPDATE_ACCEPT as u64;

pub const ATTACH_DETACH: u64 = D_ATTACH_DETACH_GROUP_IDENTITY as u64;

// The readings.
pub const STRICT: u64 = 0;

pub const SKIPPING: u64 = 1;

const OCTETS_MOST: usize = 4096;

// The messages that can be asked for.
#[derive(Clone, Copy, PartialEq, Eq)]
pub enum Message {
    Demand,
    Accept,
    AttachDetach,
}

// The message of a type number, if the number is known.
pub fn message_named(number: u64) -> Option<Message>
    ensures { result ≡ message_of number }
{
    match number {
        DEMAND => Some(Message::Demand),
        ACCEPT => Some(Message::Accept),
        ATTACH_DETACH => Some(Message::AttachDetach),
        _ => None,
    }
}

// Whether the octets are few enough and the window lies inside them.
pub fn is_good_window(octets: usize, c: Cursor) -> bool
    ensures { result ≡ good_window octets c.at c.end }
{
    octets <= OCTETS_MOST && c.at <= c.end && c.end <= 8 * octets
}

// The same, and whether the reading is one of the two.
pub fn is_good_call(octets: usize, c: Cursor, wanted: u64) -> bool
    ensures { result ≡ good_call wanted octets c.at c.end }
{
    wanted <= SKIPPING && is_good_window(octets, c)
}

// A message that is refused.
fn unread<M: OwnRecord>(e: PduParseErr) -> MessageRead<M>
    ensures { result ≡ message_answer M.own (halted e) }
{
    MessageRead {
        verdict: Err(e),
        record: M::none(),
    }
}

// A refusal's answer.
fn refused(e: PduParseErr, first: usize) -> Reading
    ensures { result ≡ no_reading e first }
{
    Reading {
        verdict: Err(e),
        place: first,
        consumed: 0,
        skipped: 0,
        record: ULocationUpdateDemand::none().alone(),
    }
}

// The answer with a record that was read from `first` up to a cursor.
fn answered(first: usize, skipped: usize, c: Cursor, held: Record) -> Reading
    requires { first ≤ c.at }
    ensures { result ≡ accepted first skipped c held }
{
    Reading {
        verdict: Ok(()),
        place: c.at,
        consumed: c.at - first,
        skipped,
        record: held,
    }
}

// A reading call that passed question 1.
fn read_as<M: Pdu>(octets: &[u8], c: Cursor, skipping: bool) -> Reading
    ensures { result ≡ called M.message skipping octets.now c.at c.end }
{
    let a = M::from_bitbuf(c, octets, skipping);
    let v = a.verdict;
    let Ok((n, c1)) = v else {
        return refused(v.unwrap_err(), c.at);
    };
    answered(c.at, n, c1, a.record.alone())
}

// A reading call: the octets lent, the window's first and end bit, the message's type number, the reading wanted. They are numbers, as
// any caller can ask for any; each message goes on with a record of its own type.
pub fn read(octets: &[u8], first: usize, end: usize, message: u64, wanted: u64) -> Reading
    ensures { result ≡ reading message wanted octets.now first end }
{
    let c = Cursor { at: first, end };
    if is_good_call(octets.len(), c, wanted) {
        let skipping = wanted == SKIPPING;
        return match message_named(message) {
            Some(Message::Demand) => read_as::<ULocationUpdateDemand>(octets, c, skipping),
            Some(Message::Accept) => read_as::<DLocationUpdateAccept>(octets, c, skipping),
            Some(Message::AttachDetach) => {
                read_as::<DAttachDetachGroupIdentity>(octets, c, skipping)
            }
            None => refused(PduParseErr::BadCall, first),
        };
    }
    refused(PduParseErr::BadCall, first)
}

// Its companion: of the octets lent, those after the last one consumed from; all of them with a refusal.
pub fn rest(octets: &[u8], first: usize, end: usize, message: u64, wanted: u64) -> &[u8]
    ensures { result.now ≡ behind (reading message wanted octets.now first end) octets.now }
{
    let r = read(octets, first, end, message, wanted);
    let v = r.verdict;
    let Ok(()) = v else {
        return octets;
    };
    let k = (r.place + 7) / 8;
    &octets[k..]
}
