// Type 3 and type 4 elements (EN 300 392-2, annex E) and the closing M-bit, as they are asked and written.
ghost use Rattle.std.specs.Prelude.{◌≡◌, ◌≤◌, ◌∷◌, [], true, false};
ghost use Rattle.bits.specs.Bits.{digits};
ghost use Rattle.bits.specs.Written.{spot};
ghost use Rattle.bits.specs.PutsLaws.{Puts};
ghost use Rattle.elements.specs.Generics.{type3_fits};
ghost use Rattle.elements.specs.Numbers.{option_all};
ghost use Rattle.elements.specs.Kinds.{held_in};
ghost use Rattle.elements.specs.Table.{mbit_width};
ghost use Rattle.elements.specs.declared.typed_pdu_fields.Kind.TheVariants as K;
ghost use Rattle.message_writers.specs.Parts.{kind_answers, kind_parts};

use crate::questions::ElementsAsked;
use bits::bitbuffer::{Cursor, NO_DIGITS};
use element_writers::typed_pdu_fields::{element_header, type3_fits, type3_size, type4_fits};
use elements::typed_pdu_fields::{OptionalType3, OptionalType4};

// The questions of a type 3 element that may be absent.
pub(crate) fn ask_type3(o: OptionalType3) -> ElementsAsked
    ensures { (result ≡ kind_answers K.Type3 o) × (result.size ≤ 80) }
{
    ElementsAsked {
        fits: type3_fits(o),
        one: true,
        listed: true,
        type3_only: true,
        short: true,
        size: type3_size(o),
    }
}

// The same of a type 4 element: one that is present is not written.
pub(crate) fn ask_type4(o: OptionalType4) -> ElementsAsked
    ensures { (result ≡ kind_answers K.Type4 o) × (result.size ≤ 0) }
{
    ElementsAsked {
        fits: type4_fits(o),
        one: true,
        listed: true,
        type3_only: !o.present,
        short: true,
        size: 0,
    }
}

// A type 3 element that may be absent; its data was asked.
pub(crate) fn write_type3(c: Cursor, octets: &mut [u8], identifier: u8, o: OptionalType3) -> Cursor
    requires { option_all type3_fits (held_in K.Type3 o) ≡ true }
    ensures { Puts (kind_parts K.Type3 identifier o) (spot octets.old c) (spot octets.new result) }
{
    if o.present {
        let g = o.value;
        let c1 = c.put(octets, element_header(identifier, g.len));
        return c1.put(octets, NO_DIGITS.then(g.data, g.len));
    }
    c
}

// The closing M-bit.
pub(crate) fn write_closing_mbit(c: Cursor, octets: &mut [u8]) -> Cursor
    ensures { Puts (digits mbit_width 0 ∷ []) (spot octets.old c) (spot octets.new result) }
{
    c.put(octets, NO_DIGITS.then(0, 1))
}
