// A message by the parts that it is written in: the fields up to the O-bit, the type 2 elements, the listed elements.
ghost use Rattle.std.specs.Prelude.{◌≡◌, ◌≤◌, length, [], ◌∷◌, true, false};
ghost use Rattle.bits.specs.Placed.{as_moved, left};
ghost use Rattle.bits.specs.Written.{written, spot, Holds};
ghost use Rattle.bits.specs.PutsLaws.{Puts};
ghost use Rattle.messages.specs.Description.{Values, more, bits, options_bits, asked};
ghost use Rattle.messages.specs.Calls.{description_of};
ghost use Rattle.messages.specs.declared.Message.{Message};
ghost use Rattle.message_writers.specs.Writes.{write_message};
ghost use Rattle.message_writers.specs.Parts.{front_bits, fields_answers, options_answers, elements_answers, elements_in, Allowed};

use crate::questions::{Answers, FieldsAsked, MessageElements, OptionsAsked};
use bits::bitbuffer::{Cursor, Digits, Moved};

pub(crate) trait Parts: Copy {
    ghost message: { Message };

    // What its record stores.
    ghost values: { Self → Values (description_of message) };

    // Whether anything follows the O-bit.
    fn announces(&self) -> bool
        ensures { result ≡ more (description_of message) (values self.now) };

    // The type, the fields and the O-bit.
    fn front(&self, obit: bool) -> Digits
        ensures { (Holds result (front_bits (description_of message) (values self.now).fields obit)) × (length (front_bits (description_of message) (values self.now).fields obit) ≤ 64) };

    fn ask_fields(&self) -> FieldsAsked
        ensures { (result ≡ fields_answers (description_of message) (values self.now).fields) × (result.size ≤ 64) };

    fn ask_options(&self) -> OptionsAsked
        ensures { (result ≡ options_answers (description_of message).options (values self.now).options) × (result.size ≤ 128) };

    fn ask_elements(&self) -> MessageElements
        ensures { (result ≡ elements_answers (description_of message).table (values self.now).slots) × (result.asked.size ≤ 8192) };

    // The type 2 elements.
    fn write_options(&self, c: Cursor, octets: &mut [u8]) -> Cursor
        requires { length (options_bits (description_of message).options (values self.now).options []) ≤ left (length octets.old) c }
        ensures { Puts (options_bits (description_of message).options (values self.now).options [] ∷ []) (spot octets.old c) (spot octets.new result) };

    // The listed elements and the closing M-bit; the lengths were asked.
    fn write_elements(&self, c: Cursor, octets: &mut [u8], list: usize, content: usize) -> Cursor
        requires { Allowed (description_of message) (values self.now) list content (left (length octets.old) c) }
        ensures { Puts (elements_in (description_of message) (values self.now) ∷ []) (spot octets.old c) (spot octets.new result) };
}

// A message with something behind its O-bit.
fn write_more<M: Parts>(d: &M, fields: FieldsAsked, c: Cursor, octets: &mut [u8]) -> Moved
    requires { (fields ≡ fields_answers (description_of M.message) (M.values d.now).fields) × (fields.size ≤ 64) × (more (description_of M.message) (M.values d.now) ≡ true) }
    ensures { written octets.new (as_moved result) ≡ write_message (asked (description_of M.message) (M.values d.now)) (bits (description_of M.message) (M.values d.now)) octets.old c }
{
    let options = d.ask_options();
    let e = d.ask_elements();
    let elements = e.asked;
    let answers = Answers {
        fits: fields.fits & (options.fits & elements.fits),
        ciphered: fields.ciphered,
        attached: elements.one,
        formed: elements.listed,
        alive: options.alive,
        saving: options.saving,
        type3_only: elements.type3_only,
        short: elements.short,
        size: fields.size + (options.size + (elements.size + 1)),
    };
    answers.first_no(c, octets.len())?;
    let c1 = c.put(octets, d.front(true));
    let c2 = d.write_options(c1, octets);
    Ok(d.write_elements(c2, octets, e.list, e.content))
}

// A message that ends with its O-bit: nothing but its fields has to be asked (DECISIONS 40).
fn write_alone<M: Parts>(d: &M, fields: FieldsAsked, c: Cursor, octets: &mut [u8]) -> Moved
    requires { (fields ≡ fields_answers (description_of M.message) (M.values d.now).fields) × (more (description_of M.message) (M.values d.now) ≡ false) }
    ensures { written octets.new (as_moved result) ≡ write_message (asked (description_of M.message) (M.values d.now)) (bits (description_of M.message) (M.values d.now)) octets.old c }
{
    let answers = Answers {
        fits: fields.fits,
        ciphered: fields.ciphered,
        attached: true,
        formed: true,
        alive: true,
        saving: true,
        type3_only: true,
        short: true,
        size: fields.size,
    };
    answers.first_no(c, octets.len())?;
    Ok(c.put(octets, d.front(false)))
}

// A message, if it passes the questions; a refusal changes nothing.
pub(crate) fn write_parts<M: Parts>(d: &M, c: Cursor, octets: &mut [u8]) -> Moved
    ensures { written octets.new (as_moved result) ≡ write_message (asked (description_of M.message) (M.values d.now)) (bits (description_of M.message) (M.values d.now)) octets.old c }
{
    let fields = d.ask_fields();
    if d.announces() {
        return write_more(d, fields, c, octets);
    }
    write_alone(d, fields, c, octets)
}
