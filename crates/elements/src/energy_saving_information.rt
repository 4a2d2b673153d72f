// Energy saving information (EN 300 392-2, clause 16.10.10).
ghost use Rattle.std.specs.Prelude.{◌≡◌};
ghost use Rattle.bits.specs.Placed.{at, as_read};
ghost use Rattle.elements.specs.Numbers.{type2};
ghost use Rattle.elements.specs.EnergySaving.{energy_saving, no_saving, saving_option};

use crate::energy_saving_mode::STAY_ALIVE;
use crate::typed_pdu_fields::OptionalU8;
use bits::bitbuffer::{Cursor, Read};

#[repr(C)]
#[derive(Clone, Copy)]
pub struct EnergySavingInformation {
    pub energy_saving_mode: u8,
    pub frame_number: OptionalU8,
    pub multiframe_number: OptionalU8,
}

#[repr(C)]
#[derive(Clone, Copy)]
pub struct OptionalEnergySavingInformation {
    pub present: bool,
    pub value: EnergySavingInformation,
}

const NONE: OptionalU8 = OptionalU8 {
    present: false,
    value: 0,
};

const ABSENT: EnergySavingInformation = EnergySavingInformation {
    energy_saving_mode: 0,
    frame_number: NONE,
    multiframe_number: NONE,
};

pub fn no_energy_saving() -> EnergySavingInformation
    ensures { result ≡ no_saving }
{
    ABSENT
}

impl EnergySavingInformation {
    // Mode, frame number, multiframe number; StayAlive has neither number.
    pub fn from_bitbuf(c: Cursor, octets: &[u8]) -> Read<EnergySavingInformation>
        ensures { as_read result ≡ at energy_saving octets.now c }
    {
        let (mode, c1) = c.read::<u8>(octets, 3)?;
        let (frame, c2) = c1.read::<u8>(octets, 5)?;
        let (multiframe, c3) = c2.read::<u8>(octets, 6)?;
        if mode == STAY_ALIVE {
            return Ok((ABSENT, c3));
        }
        Ok((
            EnergySavingInformation {
                energy_saving_mode: mode,
                frame_number: Some(frame).into(),
                multiframe_number: Some(multiframe).into(),
            },
            c3,
        ))
    }
}

impl From<Option<EnergySavingInformation>> for OptionalEnergySavingInformation {
    ghost from_gives = { λ o r. r ≡ saving_option o };

    fn from(o: Option<EnergySavingInformation>) -> OptionalEnergySavingInformation {
        OptionalEnergySavingInformation {
            present: o.is_some(),
            value: o.unwrap_or(ABSENT),
        }
    }
}

// A type 2 element: P-bit, then the energy saving information if it is 1.
pub fn parse_type2_energy_saving(c: Cursor, octets: &[u8]) -> Read<Option<EnergySavingInformation>>
    ensures { as_read result ≡ at (type2 energy_saving) octets.now c }
{
    let (p, c1) = c.read::<u8>(octets, 1)?;
    if p == 1 {
        let (saving, c2) = EnergySavingInformation::from_bitbuf(c1, octets)?;
        return Ok((Some(saving), c2));
    }
    Ok((None, c1))
}
