// Standard input, read until it ends or the buffer is full.
#![tactic(auto)]

ghost use Rattle.std.specs.Prelude.{◌≡◌, ◌-◌, ◌≤◌, length};
ghost use Rattle.text_reading.specs.Reading.{read_of, ReadWithin};

use std::io;
use std::io::Read;

// What a read answered that was lent these places.
fn read_of(got: io::Result<usize>, places: &[u8]) -> io::Result<usize>
    ensures { result ≡ read_of got (length places.now) }
{
    match got {
        Ok(n) => Ok(n.min(places.len())),
        Err(e) => Err(e),
    }
}

// One read, to the places from `at` on.
fn read_from(input: &mut impl Read, buffer: &mut [u8], at: usize) -> io::Result<usize>
    requires { at ≤ length buffer.old }
    ensures { ReadWithin (length buffer.old - at) result }
{
    let places = &mut buffer[at..];
    let got = input.read(places);
    read_of(got, places)
}

// Reads standard input until it ends or the buffer is full.
pub fn read_input(rt: &impl Input, buffer: &mut [u8]) -> io::Result<usize>
    ensures { ReadWithin (length buffer.new) result }
{
    let mut input = rt.reader();
    let mut done: usize = 0;
    // while: each turn goes on by as many bytes as the read put, and a read that puts none ends it
    while done < buffer.len() {
        let n = read_from(&mut input, buffer, done)?;
        if n == 0 {
            return Ok(done);
        }
        done += n;
    }
    Ok(done)
}
