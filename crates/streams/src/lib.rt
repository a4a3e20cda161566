// Standard input read, an answer written, and what is told on standard error where either fails. Which bytes the system gives and takes no
// contract can say; of a reader that says which bytes it has left, and a writer that says which it holds, the clauses do.
#![tactic(auto)]

ghost use Rattle.std.specs.Prelude.{◌-◌, ◌≤◌, ◌≡◌, drop, length, take};
ghost use Rattle.streams.specs.Streams.{Fits, Held, Took, WasRead, WasWritten, brought_by};

use std::io;
use std::io::{Read, Write};

// What the answer of a read says: so many bytes, or none at the end of the input.
fn brought_by(got: io::Result<usize>) -> io::Result<Option<usize>>
    ensures { result ≡ brought_by got }
{
    match got {
        Ok(0) => Ok(None),
        Ok(n) => Ok(Some(n)),
        Err(e) => Err(e),
    }
}

// One read into the buffer, from a place on.
fn read_from<R: Read>(input: &mut R, buffer: &mut [u8], from: usize) -> io::Result<Option<usize>>
    requires { from ≤ length buffer.old }
    ensures fits { Fits result (length buffer.old - from) }
    ensures before { take from buffer.new ≡ take from buffer.old }
    ensures bytes { Took (R.remaining input.old) (R.remaining input.new) result (drop from buffer.new) }
{
    let got = input.read(&mut buffer[from..]);
    brought_by(got)
}

fn tell_unread(rt: &impl Eprint) {
    let _ = eprintln!(rt; "comply: the input cannot be read");
}

// Reads until the input ends or the buffer is full; how many bytes then stand at its front.
pub fn read_input<R: Read>(rt: &impl Eprint, input: &mut R, buffer: &mut [u8]) -> io::Result<usize>
    ensures held { Held result buffer.new }
    ensures bytes { WasRead (R.remaining input.old) (R.remaining input.new) result buffer.new }
{
    let mut done = 0;
    while done < buffer.len() {
        match read_from(input, buffer, done) {
            Ok(Some(n)) => done += n,
            Ok(None) => return Ok(done),
            Err(e) => {
                tell_unread(rt);
                return Err(e);
            }
        }
    }
    Ok(done)
}

// Writes an answer, and tells of the failure where it cannot be written.
pub fn write_answer<W: Write>(
    rt: &impl Eprint,
    output: &mut W,
    answer: &[u8],
    failure: &str,
) -> io::Result<()>
    ensures { WasWritten (W.contents output.old) (W.contents output.new) result answer.now }
{
    let written = output.write_all(answer);
    if written.is_err() {
        let _ = eprintln!(rt; "{failure}");
    }
    written
}
