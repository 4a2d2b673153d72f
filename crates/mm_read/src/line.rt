// A line as it comes in, character by character.
ghost use Rattle.std.specs.Prelude.{◌≡◌, ℕ, ◌<◌, ◌↔◌, List, [], length, ◌==◌, IfErr, IfOk, IsOk};
ghost use Rattle.mm_read.specs.declared.line.TheConstants.{LINE};
ghost use Rattle.mm_read.specs.declared.call.Fault.TheVariants.{LineTooLong};
ghost use Rattle.mm_read.specs.Lines.{kept, held_by, without_return};

use crate::call::Fault;
use crate::words::Text;
use arrayvec::ArrayVec;
use std::marker::Model;

// Room for a line and one character more: a line that fills it is too long.
pub(crate) const LINE: usize = 16384;

pub(crate) const NEWLINE: u8 = b'\n';

// What has come of a line, and the line's number.
#[derive(Drop)]
pub(crate) struct Line {
    characters: ArrayVec<u8, LINE>,
    number: u64,
}

impl Model for Line {
    ghost Value = { List ℕ };

    ghost view = { λ l. l.characters.items };
}

// A line without the carriage return at its end.
fn without_return(line: &[u8]) -> &[u8]
    ensures { result.now ≡ without_return line.now }
{
    line.strip_suffix(b"\r".as_slice()).unwrap_or(line)
}

impl Line {
    // The first line, of which nothing has come.
    pub(crate) fn new() -> Line
        ensures { result ≡ [] }
    {
        Line {
            characters: ArrayVec::new(),
            number: 1,
        }
    }

    pub(crate) fn number(&self) -> u64 {
        self.number
    }

    pub(crate) fn is_empty(&self) -> bool
        ensures { result ≡ (length self.now == 0) }
    {
        self.characters.is_empty()
    }

    // The line without the carriage return at its end.
    pub(crate) fn text(&self) -> Result<Text, Fault>
        ensures fits { IsOk result ↔ (length self.now < LINE) }
        ensures text { IfOk result (λ t. t ≡ without_return self.now) }
        ensures fault { IfErr result (λ e. e ≡ LineTooLong) }
    {
        if self.characters.is_full() {
            return Err(Fault::LineTooLong);
        }
        Ok(Text {
            characters: without_return(&self.characters),
        })
    }

    // Puts a character behind, if there is room.
    fn keep(&mut self, character: u8)
        ensures { self.new ≡ kept LINE self.old character }
    {
        if !self.characters.is_full() {
            self.characters.push(character);
        }
    }

    // Takes a character; a newline begins the next line.
    pub(crate) fn take(&mut self, character: u8)
        ensures { self.new ≡ held_by LINE self.old character }
    {
        if character == NEWLINE {
            self.characters.clear();
            self.number = self.number.wrapping_add(1);
        } else {
            self.keep(character);
        }
    }
}
