// What a line asks for.
ghost use Rattle.std.specs.Prelude.{◌≡◌, ◌≤◌};
ghost use Rattle.std.specs.Char.{is_digit};
ghost use Rattle.std.specs.List.{list_all};
ghost use Rattle.mm_read.specs.Asking.{number_of, message_of, reading_of, bits_of, bit_of, shape_of, octets_word, window_of, call_of, asked_of};

use crate::words::{Text, decimal_of};
use messages::{ACCEPT, ATTACH_DETACH, DEMAND, SKIPPING, STRICT};
use std::fmt;

// What keeps a line from being a call.
#[derive(Clone, Copy, Debug, PartialEq, Eq)]
pub(crate) enum Fault {
    LineTooLong,
    WordsMissing,
    EndMissing,
    WordsExtra,
    MessageUnknown,
    ReadingUnknown,
    DigitsBad,
    DigitsOdd,
    BitUnknown,
    NumberTooLarge,
}

impl fmt::Display for Fault {
    fn fmt<W: fmt::Write>(&self, f: &mut fmt::Formatter<W>) -> fmt::Result {
        f.write_str(match self {
            Fault::LineTooLong => "the line is longer than 16383 characters",
            Fault::WordsMissing => "fewer than three words: message, reading, octets",
            Fault::EndMissing => "a first bit and no end bit",
            Fault::WordsExtra => "more than five words",
            Fault::MessageUnknown => "the message is not demand, accept, attach or a number",
            Fault::ReadingUnknown => "the reading is not strict or skipping",
            Fault::DigitsBad => "the octets have a character that is not a hexadecimal digit",
            Fault::DigitsOdd => "the octets have an odd number of hexadecimal digits",
            Fault::BitUnknown => "the first or end bit is not a decimal number",
            Fault::NumberTooLarge => "a number is above 18446744073709551615",
        })
    }
}

// A reading call but for its octets. Message and reading stay numbers: `messages::read` takes them, and a line can name any message.
#[derive(Clone, Copy)]
pub(crate) struct Call {
    pub(crate) message: u64,
    pub(crate) wanted: u64,
    pub(crate) first: usize,
    pub(crate) end: usize,
}

// `demand, strict, window 0 to 10`.
impl fmt::Display for Call {
    fn fmt<W: fmt::Write>(&self, f: &mut fmt::Formatter<W>) -> fmt::Result {
        match self.message {
            DEMAND => write!(f, "demand")?,
            ACCEPT => write!(f, "accept")?,
            ATTACH_DETACH => write!(f, "attach")?,
            n => write!(f, "message {n}")?,
        }
        let reading = if self.wanted == STRICT {
            "strict"
        } else {
            "skipping"
        };
        write!(f, ", {reading}, window {} to {}", self.first, self.end)
    }
}

// Whether all characters are digits of a base.
fn are_digits(characters: &[u8], base: u32) -> bool
    requires from_two { 2 ≤ base }
    requires to_36 { base ≤ 36 }
    ensures { result ≡ list_all (λ x. is_digit x base) characters.now }
{
    characters.iter().all(|c| char::from(*c).is_digit(base))
}

// A decimal number; `bad` is what a word of other characters is.
fn number_of(word: &[u8], bad: Fault) -> Result<u64, Fault>
    ensures { result ≡ number_of bad word.now }
{
    if !are_digits(word, 10) {
        return Err(bad);
    }
    decimal_of(word).ok_or(Fault::NumberTooLarge)
}

// A message's type number, by equalities: a `match` on words would be proved character by character.
fn message_of(word: &[u8]) -> Result<u64, Fault>
    ensures { result ≡ message_of word.now }
{
    if word == b"demand".as_slice() {
        Ok(DEMAND)
    } else if word == b"accept".as_slice() {
        Ok(ACCEPT)
    } else if word == b"attach".as_slice() {
        Ok(ATTACH_DETACH)
    } else {
        number_of(word, Fault::MessageUnknown)
    }
}

fn reading_of(word: &[u8]) -> Result<u64, Fault>
    ensures { result ≡ reading_of word.now }
{
    if word == b"strict".as_slice() {
        Ok(STRICT)
    } else if word == b"skipping".as_slice() {
        Ok(SKIPPING)
    } else {
        Err(Fault::ReadingUnknown)
    }
}

// The bits of octets in hexadecimal.
fn bits_of(hex: &Text) -> Result<u64, Fault>
    ensures { result ≡ bits_of hex.now }
{
    let digits = hex.characters;
    if !are_digits(digits, 16) {
        return Err(Fault::DigitsBad);
    }
    if digits.len() % 2 != 0 {
        return Err(Fault::DigitsOdd);
    }
    Ok(4 * (digits.len() as u64))
}

// A bit of the window, which has a value where the line names none.
fn bit_of(word: &[u8], otherwise: u64) -> Result<u64, Fault>
    ensures { result ≡ bit_of word.now otherwise }
{
    if word.is_empty() {
        return Ok(otherwise);
    }
    number_of(word, Fault::BitUnknown)
}

// Whether the third word is there, and behind it none or two.
fn shape_of(third: &Text) -> Result<(), Fault>
    ensures { result ≡ shape_of third.now }
{
    if third.is_blank() {
        return Err(Fault::WordsMissing);
    }
    let fourth = third.after_word();
    if fourth.is_blank() {
        return Ok(());
    }
    let fifth = fourth.after_word();
    if fifth.is_blank() {
        return Err(Fault::EndMissing);
    }
    if fifth.after_word().is_blank() {
        return Ok(());
    }
    Err(Fault::WordsExtra)
}

// The word that has the octets.
pub(crate) fn octets_word<'a>(line: &Text<'a>) -> Text<'a>
    ensures { result ≡ octets_word line.now }
{
    line.after_word().after_word().first_word()
}

// The window of a call whose message and reading are known; `third` starts with the octets.
fn window_of(message: u64, wanted: u64, third: &Text) -> Result<Call, Fault>
    ensures { result ≡ window_of message wanted third.now }
{
    let bits = bits_of(&third.first_word())?;
    let fourth = third.after_word();
    let first = bit_of(fourth.first_word().characters, 0)?;
    let end = bit_of(fourth.after_word().first_word().characters, bits)?;
    Ok(Call {
        message,
        wanted,
        first: first as usize,
        end: end as usize,
    })
}

fn call_of(line: &Text) -> Result<Call, Fault>
    ensures { result ≡ call_of line.now }
{
    let second = line.after_word();
    let third = second.after_word();
    shape_of(&third)?;
    let message = message_of(line.first_word().characters)?;
    let wanted = reading_of(second.first_word().characters)?;
    window_of(message, wanted, &third)
}

// The call that a line asks for; an empty line and a comment ask for none.
pub(crate) fn asked_by(line: &Text) -> Result<Option<Call>, Fault>
    ensures { result ≡ asked_of line.now }
{
    match line.first_word().characters {
        [] | [b'#', ..] => Ok(None),
        _ => call_of(line).map(Some),
    }
}
