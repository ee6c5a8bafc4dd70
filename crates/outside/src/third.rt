// Descriptor 3, for a program that is started with it. std reaches a descriptor only by the name that the system gives it: it is opened once more, at the first write,
// where it stands then.
use super::read_full;
use std::fs::{File, OpenOptions};
use std::io::{Error, ErrorKind, Seek, SeekFrom, Write};
use std::os::unix::fs::FileTypeExt;
use std::rt::Files;
use std::{fs, io, str};

const NAME: &str = "/proc/self/fd/3";

// What is written to descriptor 3, where whoever started the program opened it for writing; what is written elsewhere is not kept.
#[derive(Drop)]
pub struct Third<'a, R: Files> {
    rt: &'a R,
    file: Option<R::File>,
}

// How the system says that a descriptor stands: whether it was opened for writing, whether each write goes to the end, and where it is in its file.
#[derive(Clone, Copy)]
struct Stand {
    writes: bool,
    appends: bool,
    at: u64,
}

// What stands behind a heading, or nothing where no line has it.
fn told_behind<'a>(told: &'a str, heading: &str) -> Option<&'a str> {
    for line in told.lines() {
        if let Some(rest) = line.strip_prefix(heading) {
            return Some(rest.trim());
        }
    }
    None
}

// What the system tells of a descriptor: its flags are in octal, of which the lowest two bits are 1 for writing and 2 for both, and the eleventh is for appending.
fn stand_in(told: &str) -> Option<Stand> {
    let flags = u64::from_str_radix(told_behind(told, "flags:")?, 8).ok()?;
    let at = told_behind(told, "pos:")?.parse().ok()?;
    Some(Stand {
        writes: flags % 4 == 1 || flags % 4 == 2,
        appends: flags / 1024 % 2 == 1,
        at,
    })
}

// How descriptor 3 stands, or nothing where it is closed; an error where the system does not tell.
fn third_stands<R: Files>(rt: &R) -> io::Result<Option<Stand>> {
    // Kept: fixed memory, no heap.
    let mut told = [0u8; 4096];
    let _tells = fs::metadata(rt, "/proc/self/fdinfo")?;
    let mut file = match File::open(rt, "/proc/self/fdinfo/3") {
        Ok(file) => file,
        Err(error) if error.kind() == ErrorKind::NotFound => return Ok(None),
        Err(error) => return Err(error),
    };
    let n = read_full(&mut file, &mut told)?;
    let stand = str::from_utf8(&told[..n]).ok().and_then(stand_in);
    match stand {
        Some(stand) => Ok(Some(stand)),
        None => Err(Error::from(ErrorKind::InvalidData)),
    }
}

// A pipe's writing end alone would wait for a reader. Opened beside both ends it does not, and a pipe that nobody reads refuses what is written, as the descriptor does.
fn open_pipe<R: Files>(rt: &R) -> io::Result<R::File> {
    let _both = OpenOptions::new().read(true).write(true).open(rt, NAME)?;
    OpenOptions::new().write(true).open(rt, NAME)
}

fn open_at<R: Files>(rt: &R, stand: Stand) -> io::Result<R::File> {
    let kind = fs::metadata(rt, NAME)?.file_type();
    if kind.is_fifo() {
        return open_pipe(rt);
    }
    let mut file = OpenOptions::new()
        .write(true)
        .append(stand.appends)
        .open(rt, NAME)?;
    if kind.is_file() || kind.is_block_device() {
        file.seek(SeekFrom::Start(stand.at))?;
    }
    Ok(file)
}

fn open_third<R: Files>(rt: &R) -> io::Result<R::File> {
    match third_stands(rt)? {
        Some(stand) if stand.writes => open_at(rt, stand),
        _ => OpenOptions::new().write(true).open(rt, "/dev/null"),
    }
}

impl<'a, R: Files> Third<'a, R> {
    pub fn new(rt: &'a R) -> Third<'a, R> {
        Third { rt, file: None }
    }
}

impl<R: Files> Write for Third<'_, R> {
    fn write(&mut self, buf: &[u8]) -> io::Result<usize> {
        if self.file.is_none() {
            self.file = Some(open_third(self.rt)?);
        }
        match &mut self.file {
            Some(file) => file.write(buf),
            None => Ok(0),
        }
    }

    fn flush(&mut self) -> io::Result<()> {
        Ok(())
    }
}
