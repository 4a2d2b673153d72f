// A structure of a message that holds a list of groups: a location demand or accept (clauses 16.10.24 and 16.10.23).
ghost use Rattle.std.specs.Prelude.{◌≡◌, false};
ghost use Rattle.bits.specs.Placed.{at, halted};
ghost use Rattle.elements.specs.GroupAnswers.{Structures, structure_answer, structure_slot, structure_slot_answer};
ghost use Rattle.elements.specs.TraitLaws.{Shaped};

use crate::typed_pdu_fields::{Judged, read_slot_front};
use bits::bitbuffer::{Cursor, Moved};
use bits::pdu_parse_error::PduParseErr;

pub trait Structure: Copy {
    // What holds it in a record, where it may be absent.
    type Optional: Copy;

    ghost kind: { Structures Self Self.Optional };

    // What stands where there is none: an absent list, and zeros.
    fn none() -> Self
        ensures { result ≡ kind.none };

    fn optional(self, present: bool) -> Self::Optional
        ensures { result ≡ kind.make present self };
}

// A structure, as it is read.
pub trait ReadStructure: Structure {
    // The content of `len` bits. It has to end where its length said.
    fn from_bitbuf(c: Cursor, octets: &[u8], len: usize) -> Judged<Self>
        ensures { result ≡ structure_answer Self.kind (at (Self.kind.content len) octets.now c) };

    ghost shaped: { Shaped Self.kind };
}

// A refusal, and nothing beside it.
pub(crate) fn refused<S: Structure>(e: PduParseErr) -> Judged<S>
    ensures { result ≡ structure_answer S.kind (halted e) }
{
    Judged {
        verdict: Err(e),
        value: S::none(),
    }
}

// The slot of an absent structure, or of one that is refused.
fn absent<S: Structure>(verdict: Moved) -> Judged<S::Optional>
    ensures { result ≡ record { verdict = verdict; value = S.kind.make false S.kind.none } }
{
    Judged {
        verdict,
        value: S::none().optional(false),
    }
}

// The slot of a table that holds the structure.
pub fn read_structure_slot<S: ReadStructure>(
    c: Cursor,
    octets: &[u8],
    identifier: u8,
) -> Judged<S::Optional>
    ensures { result ≡ structure_slot_answer S.kind (at (structure_slot S.kind identifier) octets.now c) }
{
    let f = read_slot_front(c, octets, identifier);
    let Ok((front, c1)) = f else {
        return absent::<S>(Err(f.unwrap_err()));
    };
    let Some(len) = front else {
        return absent::<S>(Ok(c1));
    };
    let r = S::from_bitbuf(c1, octets, len);
    let v = r.verdict;
    let Ok(c2) = v else {
        return absent::<S>(v);
    };
    Judged {
        verdict: Ok(c2),
        value: r.value.optional(true),
    }
}
