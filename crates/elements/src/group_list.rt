// Lists of groups of either kind, as they are read: a type 4 element with a group for each of its entries.
ghost use Rattle.std.specs.Prelude.{◌≡◌, None, set, replicate};
ghost use Rattle.bits.specs.Reader.{Local};
ghost use Rattle.bits.specs.Placed.{at, as_read, halted};
ghost use Rattle.elements.specs.Lists.{Groups, Made, entries_most, list_of};
ghost use Rattle.elements.specs.Locations.{nested};
ghost use Rattle.elements.specs.GroupAnswers.{list_answer, nested_slot_if};

use crate::typed_pdu_fields::{Judged, read_closing_mbit_if, read_list_front};
use bits::bitbuffer::{Cursor, Moved, Read};
use bits::pdu_parse_error::PduParseErr;

// A list of groups of one kind, which may be absent.
pub trait GroupList: Copy {
    type Group: Copy;

    ghost kind: { Groups Self.Group Self };

    // A list whose groups all hold zeros.
    fn zeros(present: bool, count: usize) -> Self
        ensures { result ≡ kind.make present count (replicate entries_most kind.zero) };

    // Puts a group in its place; behind the last place there is none.
    fn put(&mut self, i: usize, g: Self::Group)
        ensures { self.new ≡ kind.make (kind.present self.old) (kind.count self.old) (set (kind.groups self.old) i g) };

    fn read_group(c: Cursor, octets: &[u8]) -> Read<Self::Group>
        ensures { as_read result ≡ at kind.group octets.now c };

    ghost local: { Local kind.group };

    ghost made: { Made kind };
}

pub fn no_list<L: GroupList>() -> L
    ensures { result ≡ list_of L.kind None }
{
    L::zeros(false, 0)
}

// A refusal, and the list absent beside it.
fn refused<L: GroupList>(e: PduParseErr, list: &mut L) -> Moved
    ensures { record { verdict = result; value = list.new } ≡ list_answer L.kind (halted e) }
{
    *list = no_list();
    Err(e)
}

// The slot of a list of groups, where there is such a slot, read into `list`: handed up, a list would be copied at each step
// (docs/SPEED.md). It has to end where its length said.
fn read_list<L: GroupList>(
    c: Cursor,
    octets: &[u8],
    there: bool,
    identifier: u8,
    list: &mut L,
) -> Moved
    ensures { record { verdict = result; value = list.new } ≡ list_answer L.kind (at (nested_slot_if L.kind identifier there) octets.now c) }
{
    let l = read_list_front(c, octets, there, identifier);
    let Ok((front, first)) = l else {
        return refused(l.unwrap_err(), list);
    };
    let Some(front) = front else {
        *list = no_list();
        return Ok(first);
    };
    *list = L::zeros(true, front.count);
    let mut place = first;
    for i in 0..front.count {
        let f = L::read_group(place, octets);
        let Ok((g, next)) = f else {
            return refused(f.unwrap_err(), list);
        };
        list.put(i, g);
        place = next;
    }
    if place.at - first.at == front.len {
        return Ok(place);
    }
    refused(PduParseErr::InconsistentLength, list)
}

// The same with the list handed back.
pub fn read_list_slot<L: GroupList>(
    c: Cursor,
    octets: &[u8],
    there: bool,
    identifier: u8,
) -> Judged<L>
    ensures { result ≡ list_answer L.kind (at (nested_slot_if L.kind identifier there) octets.now c) }
{
    let mut list = no_list();
    let verdict = read_list(c, octets, there, identifier, &mut list);
    Judged {
        verdict,
        value: list,
    }
}

// The list inside a structure, read into `list`: the O-bit, and behind an O-bit of 1 the list's slot and the closing M-bit.
pub(crate) fn read_nested<L: GroupList>(
    c: Cursor,
    octets: &[u8],
    identifier: u8,
    list: &mut L,
) -> Moved
    ensures { record { verdict = result; value = list.new } ≡ list_answer L.kind (at (nested L.kind identifier) octets.now c) }
{
    let o = c.read::<u8>(octets, 1);
    let Ok((obit, c1)) = o else {
        return refused(o.unwrap_err(), list);
    };
    let v = read_list(c1, octets, obit == 1, identifier, list);
    let Ok(c2) = v else {
        return v;
    };
    let e = read_closing_mbit_if(c2, octets, obit == 1);
    let Ok(c3) = e else {
        return refused(e.unwrap_err(), list);
    };
    Ok(c3)
}
