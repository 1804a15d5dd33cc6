// Filling a buffer from what is read.

#![tactic(auto)]

ghost use Rattle.std.specs.Prelude.{◌≤◌, IfOk, length};

use std::io;
use std::io::Read;

// Reads until the buffer is full, the input ends or a read fails, and tells how many bytes were read, and whether a read failed behind them: a pipe may hand its bytes out in pieces.
fn read_on(input: &mut impl Read, buffer: &mut [u8]) -> (usize, io::Result<()>)
    ensures { result.0 ≤ length buffer.new }
{
    let mut size = 0;
    while size < buffer.len() {
        let count = match input.read(&mut buffer[size..]) {
            Ok(count) => count,
            Err(error) => return (size, Err(error)),
        };
        if count == 0 {
            break;
        }
        size += count;
    }
    (size, Ok(()))
}

// Hands out what was read, or why a read failed.
pub fn fill<'a>(input: &mut impl Read, buffer: &'a mut [u8]) -> io::Result<&'a [u8]>
    ensures { IfOk result (λ bytes. length bytes.now ≤ length buffer.old) }
{
    let (size, ended) = read_on(input, buffer);
    ended?;
    Ok(&buffer[..size])
}

// Hands out what was read; a read that fails ends the input.
pub fn fill_until_failure<'a>(input: &mut impl Read, buffer: &'a mut [u8]) -> &'a [u8]
    ensures { length result.now ≤ length buffer.old }
{
    let (size, _) = read_on(input, buffer);
    &buffer[..size]
}
