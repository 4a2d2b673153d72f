// The address of a group (EN 300 392-2, clauses 16.10.22 and 16.10.27): the parts that its address type has.
ghost use Rattle.std.specs.Prelude.{◌≡◌};
ghost use Rattle.bits.specs.Placed.{at, as_read};
ghost use Rattle.elements.specs.Groups.{address_of, forms_by, typed_address};

use crate::typed_pdu_fields::read_optional;
use bits::bitbuffer::{Cursor, Read};

// Each part has 24 bits.
#[derive(Clone, Copy)]
pub struct GroupAddress {
    pub gssi: Option<u32>,
    pub address_extension: Option<u32>,
    pub vgssi: Option<u32>,
}

// The parts that are wanted, in order.
fn read_parts(
    c: Cursor,
    octets: &[u8],
    gssi: bool,
    address_extension: bool,
    vgssi: bool,
) -> Read<GroupAddress>
    ensures { as_read result ≡ at (address_of (record { gssi = gssi; address_extension = address_extension; vgssi = vgssi })) octets.now c }
{
    let (gssi, c1) = read_optional(c, octets, gssi, 24)?;
    let (address_extension, c2) = read_optional(c1, octets, address_extension, 24)?;
    let (vgssi, c3) = read_optional(c2, octets, vgssi, 24)?;
    Ok((
        GroupAddress {
            gssi,
            address_extension,
            vgssi,
        },
        c3,
    ))
}

// A group's address: `ALL` says whether type 3 has all parts, as in a downlink group, or none, as in an uplink one.
pub fn read_address<const ALL: bool>(c: Cursor, octets: &[u8]) -> Read<GroupAddress>
    ensures { as_read result ≡ at (typed_address (forms_by ALL)) octets.now c }
{
    let (address_type, c1) = c.read::<u8>(octets, 2)?;
    match address_type {
        0 => read_parts(c1, octets, true, false, false),
        1 => read_parts(c1, octets, true, true, false),
        2 => read_parts(c1, octets, false, false, true),
        _ => read_parts(c1, octets, ALL, ALL, ALL),
    }
}
