// The words of a line, and what they spell.
ghost use Rattle.std.specs.Prelude.{◌≡◌, ℕ, ◌<◌, ◌≤◌, List, length, IfSome};
ghost use Rattle.mm_read.specs.declared.line.TheConstants.{LINE};
ghost use Rattle.mm_read.specs.Words.{is_blank, first_word, after_word, no_word, digit_of, octet_of, octets, decimal_of};

use crate::line::LINE;
use arrayvec::ArrayVec;
use std::marker::Model;

// The octets that a text writes at most.
pub(crate) const OCTETS: usize = LINE / 2;

// A text that is no longer than a line: a line, a word of it, or what stands behind a word.
#[derive(Drop)]
pub(crate) struct Text<'a> {
    pub(crate) characters: &'a [u8],
}

impl<'a> Model for Text<'a> {
    ghost Value = { List ℕ };

    ghost view = { λ t. t.characters.now };

    ghost invariant = { λ t. length t.characters.now ≤ LINE };
}

// Whether a character parts words.
fn is_blank(character: u8) -> bool
    ensures { result ≡ is_blank character }
{
    matches!(character, b' ' | b'\t')
}

impl<'a> Text<'a> {
    // The first word, and what stands behind it.
    fn split(&self) -> (Text<'a>, Text<'a>)
        ensures word { result.0 ≡ first_word self.now }
        ensures behind { result.1 ≡ after_word self.now }
    {
        let text = self.characters;
        let start = text.iter().position(|c| !is_blank(*c));
        let rest = &text[start.unwrap_or(text.len())..];
        let end = rest.iter().position(|c| is_blank(*c));
        let (word, behind) = rest.split_at(end.unwrap_or(rest.len()));
        (Text { characters: word }, Text { characters: behind })
    }

    // The first word; empty if there is none: an `Option` would be opened again once the words are counted.
    pub(crate) fn first_word(&self) -> Text<'a>
        ensures { result ≡ first_word self.now }
    {
        self.split().0
    }

    // Whether no word is left.
    pub(crate) fn is_blank(&self) -> bool
        ensures { result ≡ no_word self.now }
    {
        self.first_word().characters.is_empty()
    }

    // What stands behind the first word.
    pub(crate) fn after_word(&self) -> Text<'a>
        ensures { result ≡ after_word self.now }
    {
        self.split().1
    }
}

// A digit's value in a base.
fn digit(character: u8, base: u32) -> Option<u32>
    requires from_two { 2 ≤ base }
    requires to_36 { base ≤ 36 }
    ensures value { result ≡ digit_of base character }
    ensures below { IfSome result (λ d. d < base) }
{
    char::from(character).to_digit(base)
}

// The octet that two hexadecimal digits write.
fn octet(high: u8, low: u8) -> u8
    ensures { result ≡ octet_of high low }
{
    let high = digit(high, 16).unwrap_or(0);
    let low = digit(low, 16).unwrap_or(0);
    (16 * high + low) as u8
}

// The octets that hexadecimal digits write.
pub(crate) fn octets_of(hex: &Text) -> ArrayVec<u8, OCTETS>
    ensures { result.items ≡ octets hex.now }
{
    let mut out = ArrayVec::new();
    for pair in hex.characters.chunks_exact(2) {
        out.push(octet(pair[0], pair[1]));
    }
    out
}

// The number that decimal digits write, if it fits 64 bits.
pub(crate) fn decimal_of(digits: &[u8]) -> Option<u64>
    ensures { result ≡ decimal_of digits.now }
{
    let mut n = 0u64;
    for c in digits {
        let d = digit(*c, 10)?;
        n = n.checked_mul(10)?.checked_add(u64::from(d))?;
    }
    Some(n)
}
