// What a program takes from outside: an input read to its end into lent room, and arguments, which may name files.
#![tactic(auto)]

ghost use Rattle.std.specs.Prelude.{◌≤◌, IfOk, length};

use std::env::FillError;
use std::fs::File;
use std::io::{Error, ErrorKind, Read};
use std::rt::{Env, Files};
use std::{io, str};

pub mod inner;
pub mod third;

// Reads until the room is full or the input ends, and says how many bytes stand at its front.
pub fn read_full<I: Read>(input: &mut I, room: &mut [u8]) -> io::Result<usize>
    ensures { IfOk result (λ n. n ≤ length room.new) }
{
    let mut done = 0;
    while done < room.len() {
        let n = input.read(&mut room[done..])?;
        if n == 0 {
            return Ok(done);
        }
        done += n;
    }
    Ok(done)
}

// Whether there is an argument i; argument 0 is the program.
pub fn has_argument(rt: &impl Env, i: usize) -> bool {
    // Kept: fixed memory, no heap.
    let mut text = [0u8; 4096];
    match rt.arg(i, &mut text) {
        Ok(_) => true,
        Err(FillError::TooLong) => true,
        Err(FillError::NotPresent) => false,
    }
}

// Puts argument i at the front of the room, and says how many bytes it has: none where there is no such argument, or no room for it.
pub fn argument(rt: &impl Env, i: usize, room: &mut [u8]) -> usize
    ensures { result ≤ length room.new }
{
    match rt.arg(i, room) {
        Ok(n) => n,
        Err(_) => 0,
    }
}

// Prints argument i.
pub fn print_argument(rt: &(impl Env + Print), i: usize) -> io::Result<()> {
    // Kept: fixed memory, no heap.
    let mut text = [0u8; 4096];
    let n = argument(rt, i, &mut text);
    rt.write_all(&text[..n])
}

// Opens the file that argument i names. A name is text.
pub fn open_argument<R: Env + Files>(rt: &R, i: usize) -> io::Result<R::File> {
    // Kept: fixed memory, no heap.
    let mut text = [0u8; 4096];
    let n = argument(rt, i, &mut text);
    match str::from_utf8(&text[..n]) {
        Ok(name) => File::open(rt, name),
        Err(_) => Err(Error::from(ErrorKind::InvalidInput)),
    }
}
