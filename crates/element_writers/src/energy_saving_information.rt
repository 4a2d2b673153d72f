// Energy saving information (EN 300 392-2, clause 16.10.10).
ghost use Rattle.std.specs.Prelude.{◌≡◌};
ghost use Rattle.bits.specs.Written.{Joined};
ghost use Rattle.elements.specs.Numbers.{type2_bits, held};
ghost use Rattle.elements.specs.EnergySaving.{saving_bits};
ghost use Rattle.element_writers.specs.SavingAsked.{saving_asked};

use crate::typed_pdu_fields::{Held, ask_type2};
use bits::bitbuffer::Digits;
use elements::energy_saving_information::OptionalEnergySavingInformation;
use elements::energy_saving_mode::STAY_ALIVE;

// A type 2 element, behind other bits: the P-bit, and the energy saving information if it is present.
pub fn then_saving(d: Digits, o: OptionalEnergySavingInformation) -> Digits
    ensures { Joined d (type2_bits saving_bits (held o.present o.value)) result }
{
    let e = o.value;
    if o.present {
        let frame = e.frame_number.held();
        let multiframe = e.multiframe_number.held();
        let p = d.then(1, 1);
        let m = p.then(e.energy_saving_mode as u64, 3);
        let f = m.then(frame.unwrap_or(0), 5);
        return f.then(multiframe.unwrap_or(0), 6);
    }
    d.then(0, 1)
}

// What questions 8, 12 and 13 find.
#[derive(Clone, Copy)]
pub struct SavingAsked {
    pub fits: bool,
    pub alive: bool,
    pub saving: bool,
}

// The questions; what is absent passes them.
pub fn ask_saving(o: OptionalEnergySavingInformation) -> SavingAsked
    ensures { result ≡ saving_asked (held o.present o.value) }
{
    let e = o.value;
    if o.present {
        let frame = e.frame_number.held();
        let multiframe = e.multiframe_number.held();
        let mode = e.energy_saving_mode;
        return SavingAsked {
            fits: (mode < 8) & (ask_type2(e.frame_number, 5) & ask_type2(e.multiframe_number, 6)),
            alive: (mode != STAY_ALIVE) | (frame.is_none() & multiframe.is_none()),
            saving: (mode == STAY_ALIVE) | (frame.is_some() & multiframe.is_some()),
        };
    }
    SavingAsked {
        fits: true,
        alive: true,
        saving: true,
    }
}
