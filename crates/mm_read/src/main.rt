// Reads messages at the bench: each line of standard input is a reading call, whose answer is printed field by field.
// A line: message, reading, octets in hexadecimal, and if wanted the window's first and end bit.
#![tactic(auto)]

mod call;
mod line;
mod show;
mod words;

ghost use Rattle.std.specs.Prelude.{◌≡◌, OnOk};
ghost use Rattle.mm_read.specs.Lines.{held};

use call::{Call, Fault, asked_by, octets_word};
use line::{LINE, Line, NEWLINE};
use messages::read;
use std::io;
use std::io::{BufWriter, Read, Write};
use words::{Text, octets_of};

// How much is read at once, and how much is gathered before it is printed.
const PIECE: usize = 65536;

fn answer_call(out: &mut impl Write, number: u64, call: Call, hex: &Text) -> io::Result<()> {
    let octets = octets_of(hex);
    show::heading(out, number, call)?;
    show::reading(
        out,
        call.message,
        read(&octets, call.first, call.end, call.message, call.wanted),
    )
}

// The call that a line asks for, and the word that has its octets.
fn asked(line: &Line) -> Result<Option<(Call, Text)>, Fault> {
    let text = line.text()?;
    let call = asked_by(&text)?;
    Ok(call.map(|c| (c, octets_word(&text))))
}

fn answer(out: &mut impl Write, line: &Line) -> io::Result<()> {
    let number = line.number();
    match asked(line) {
        Ok(Some((call, hex))) => answer_call(out, number, call, &hex),
        Ok(None) => Ok(()),
        Err(fault) => show::unread(out, number, fault),
    }
}

// Answers each line that ends in a piece of the input.
fn take_piece(out: &mut impl Write, line: &mut Line, piece: &[u8]) -> io::Result<()>
    ensures { OnOk result (line.new ≡ held LINE line.old piece.now) }
{
    for character in piece {
        if *character == NEWLINE {
            answer(out, line)?;
        }
        line.take(*character);
    }
    Ok(())
}

// A proved loop has to end, so it counts up to a number that no run reaches.
fn main(rt: HostRuntime) -> io::Result<()> {
    let mut input = rt.reader();
    let mut out = BufWriter::with_capacity(rt.alloc(), PIECE, io::writer(&rt))?;
    let mut line = Line::new();
    let mut piece = [0u8; PIECE];
    for _ in 0..u64::MAX {
        // The read may wait, and who sends the next line may wait for these answers.
        out.flush()?;
        let n = input.read(&mut piece)?;
        if n == 0 {
            break;
        }
        take_piece(&mut out, &mut line, &piece[..n])?;
    }
    // A last line without a newline.
    if !line.is_empty() {
        answer(&mut out, &line)?;
    }
    out.flush()
}
