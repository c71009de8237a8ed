// An input, to its end or to the end of a lent buffer. A read that fails is told from the end.
#![tactic(auto)]

ghost use Rattle.reading.specs.Inputs.{Fills};

use std::io::{ErrorKind, Read};

// The input cannot be read.
#[derive(Clone, Copy, Debug, PartialEq, Eq)]
pub struct Unreadable;

// Reads until the input ends or the buffer is full, whatever comes at once, and answers how many bytes came. A read that a signal interrupts is
// tried again, more often than can be, but not without end.
pub fn read_input<R: Read>(reader: &mut R, buffer: &mut [u8]) -> Result<usize, Unreadable>
    ensures { Fills (R.remaining reader.old) (R.remaining reader.new) result buffer.new }
{
    let mut done = 0;
    for _ in 0..u64::MAX {
        if done == buffer.len() {
            return Ok(done);
        }
        match reader.read(&mut buffer[done..]) {
            Ok(0) => return Ok(done),
            Ok(more) => done += more,
            Err(e) => {
                if e.kind() != ErrorKind::Interrupted {
                    return Err(Unreadable);
                }
            }
        }
    }
    Err(Unreadable)
}
