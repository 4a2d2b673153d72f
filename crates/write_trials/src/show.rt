// The line of a trial: its name, what was written or the refusal's number, and whether the other octets are kept.
use crate::records::Message;
use message_writers::write;
use messages::Record;
use std::fmt::Display;
use std::io;
use std::ops::Range;

// Whether the octets outside a part are all ones still.
fn end_line(rt: &impl Print, octets: &[u8], part: Range<usize>) -> io::Result<()> {
    let before = octets.iter().take(part.start);
    let behind = octets.iter().skip(part.end);
    if before.chain(behind).all(|octet| *octet == 0xFF) {
        println!(rt; " | kept")
    } else {
        println!(rt; " | CHANGED")
    }
}

// One writing to octets of ones: the octets from that of the first bit to that of the last one written, and whether the
// others are kept; with a refusal, whether all are. The message is the library's number, since unknown ones are tried too.
pub(crate) fn line(
    rt: &impl Print,
    name: impl Display + Drop,
    octets: &mut [u8],
    window: Range<usize>,
    message: u64,
    held: Record,
) -> io::Result<()> {
    let first = window.start;
    let w = write(octets, first, window.end, message, held);
    match w.verdict {
        Ok(()) => {
            let bits = w.written;
            let from = first / 8;
            let to = from + bits / 8 + (first % 8 + bits % 8 + 7) / 8;
            print!(rt; "{name} | {bits} bits:")?;
            for octet in octets.iter().take(to).skip(from) {
                print!(rt; " {octet:02x}")?;
            }
            end_line(rt, octets, from..to)
        }
        Err(e) => {
            print!(rt; "{name} | refused {}", e.number())?;
            end_line(rt, octets, 0..0)
        }
    }
}

// The same in 512 octets.
pub(crate) fn line_512(
    rt: &impl Print,
    name: impl Display + Drop,
    window: Range<usize>,
    message: u64,
    held: Record,
) -> io::Result<()> {
    let mut octets = [0xFFu8; 512];
    line(rt, name, &mut octets, window, message, held)
}

// The same of a message's own record.
pub(crate) fn window<M: Message>(
    rt: &impl Print,
    name: impl Display + Drop,
    window: Range<usize>,
    m: M,
) -> io::Result<()> {
    line_512(rt, name, window, M::TYPE, m.alone())
}

// The same in all of them.
pub(crate) fn whole<M: Message>(
    rt: &impl Print,
    name: impl Display + Drop,
    m: M,
) -> io::Result<()> {
    window(rt, name, 0..4096, m)
}
