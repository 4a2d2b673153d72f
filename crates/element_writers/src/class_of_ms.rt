// Class of MS (EN 300 392-2, clause 16.10.5): 24 bits, top bit first.
ghost use Rattle.std.specs.Prelude.{◌≡◌};
ghost use Rattle.bits.specs.Written.{Holds};
ghost use Rattle.elements.specs.Numbers.{type2_bits, held, option_all};
ghost use Rattle.elements.specs.ClassOfMs.{class_bits, class_fits};

use bits::bitbuffer::{Digits, NO_DIGITS, within};
use elements::class_of_ms::{ClassOfMs, OptionalClassOfMs};

// How many bits each field has.
const WIDTHS: [usize; 22] = [
    1, 1, 1, 1, 1, 1, 1, 1, 1, 1, 1, 1, 1, 1, 1, 1, 3, 1, 1, 1, 1, 1,
];

// P-bit 1, and the fields.
fn present_class(m: ClassOfMs) -> Digits
    ensures { Holds result (type2_bits class_bits (Some m)) }
{
    let values = m.fields();
    let mut d = NO_DIGITS.then(1, 1);
    for (value, width) in values.iter().zip(&WIDTHS) {
        d = d.then(*value as u64, *width);
    }
    d
}

// A type 2 element: the P-bit, and the class of MS if it is present.
pub fn type2_class(o: OptionalClassOfMs) -> Digits
    ensures { Holds result (type2_bits class_bits (held o.present o.value)) }
{
    let m = o.value;
    if o.present {
        return present_class(m);
    }
    NO_DIGITS.then(0, 1)
}

// Question 8: whether each field is in its width.
fn fits(m: ClassOfMs) -> bool
    ensures { result ≡ class_fits m }
{
    let values = m.fields();
    values
        .iter()
        .zip(&WIDTHS)
        .all(|(value, width)| within(*value as u64, *width))
}

// The same of a class of MS that may be absent.
pub fn class_fits(o: OptionalClassOfMs) -> bool
    ensures { result ≡ option_all class_fits (held o.present o.value) }
{
    let m = o.value;
    if o.present {
        return fits(m);
    }
    true
}
