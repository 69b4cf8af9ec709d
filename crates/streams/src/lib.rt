// What the programs read and write: a whole input, or as much of it as the buffer holds; some bytes.
#![tactic(auto)]

ghost use Rattle.std.specs.Prelude.{◌≡◌, true, ◌≤◌, length, IfSome};
ghost use Rattle.std.specs.Result.{result_ok};
ghost use Rattle.streams.specs.Counts.{IsPrefixLen};

use std::env::{Env, FillError};
use std::fmt::Display;
use std::fs::Files;
use std::io::{ErrorKind, Read, Write};
use std::{fs, io, str};

// The reason of an error as the system words it: std has the error's number behind it.
fn reason(text: &str) -> &str {
    match text.split_once(" (os error ") {
        Some((words, _)) => words,
        None => text,
    }
}

// Writes a line to standard error: what failed, as the caller names it, a colon and the reason. No contract can say what goes out.
fn tell<D: Display + Drop>(rt: &impl Eprint, what: D, error: io::Error) {
    let mut text = [0u8; 512];
    let mut rest: &mut [u8] = &mut text;
    let _ = write!(rest, "{error}");
    let n = 512usize.saturating_sub(rest.len());
    let words = reason(str::from_utf8(&text[..n]).unwrap_or(""));
    let _ = eprintln!(rt; "{what}: {words}");
}

// The value that a step came to, or none where it failed: why is then told on standard error.
pub fn ok_or_tell<T, D: Display + Drop>(
    rt: &impl Eprint,
    what: D,
    outcome: io::Result<T>,
) -> Option<T>
    ensures { result ≡ result_ok outcome }
{
    match outcome {
        Ok(value) => Some(value),
        Err(error) => {
            tell(rt, what, error);
            None
        }
    }
}

// Is there an argument i? Argument 0 is the program's name. What a program was called with no contract can say.
pub fn has_argument(rt: &impl Env, i: usize) -> bool {
    let mut first: [u8; 1] = [0; 1];
    !matches!(rt.arg(i, &mut first), Err(FillError::NotPresent))
}

// The program's argument i, put at the start of the buffer: no bytes where there is no such argument, or it is longer than the buffer. No
// Option: it cannot fail, and the empty path that is then read names no file, as is told.
pub fn argument<'a>(rt: &impl Env, i: usize, buf: &'a mut [u8]) -> &'a [u8]
    ensures { length result.now ≤ length buf.old }
{
    let n = rt.arg(i, buf).unwrap_or(0);
    &buf[..n]
}

// Reads until the buffer is full, the input ends or a read fails: how many bytes came, and whether each read went well. A read
// says itself how far it came, so no `for` counts the places.
pub fn fill<R: Read>(from: &mut R, buf: &mut [u8]) -> (usize, io::Result<()>)
    ensures { IsPrefixLen result.0 buf.new }
{
    let mut done = 0;
    while done < buf.len() {
        match from.read(&mut buf[done..]) {
            Ok(0) => break,
            Ok(n) => done += n,
            Err(error) => return (done, Err(error)),
        }
    }
    (done, Ok(()))
}

// Reads into the buffer until the input ends or it is full, whichever comes first: what was read. What cannot be read is told on standard
// error.
pub fn read_input<'a, R: Read>(
    rt: &impl Eprint,
    name: &str,
    from: &mut R,
    buf: &'a mut [u8],
) -> Option<&'a [u8]>
    ensures { IfSome result (λ bytes. length bytes.now ≤ length buf.old) }
{
    let (n, ended) = fill(from, buf);
    ok_or_tell(rt, name, ended)?;
    Some(&buf[..n])
}

// Reads the file at a path; what cannot be read is told on standard error. A path that is no text names no file.
pub fn read_path<'a, R: Files + Eprint>(rt: &R, path: &[u8], buf: &'a mut [u8]) -> Option<&'a [u8]>
    ensures { IfSome result (λ bytes. length bytes.now ≤ length buf.old) }
{
    let Ok(name) = str::from_utf8(path) else {
        let error = io::Error::from(ErrorKind::InvalidFilename);
        tell(rt, path.escape_ascii(), error);
        return None;
    };
    let mut file = ok_or_tell(rt, name, fs::open(rt, name))?;
    read_input(rt, name, &mut file, buf)
}

// Did the bytes all go out? Of no bytes that holds; of others the system says it, and no contract can. What cannot be written
// is told on standard error. A yes or no: no value comes of it that an Option could have.
pub fn write_out(rt: &(impl Print + Eprint), bytes: &[u8]) -> bool
    ensures { length bytes.now ≡ 0 → result ≡ true }
{
    bytes.is_empty() || ok_or_tell(rt, "standard output", rt.write_all(bytes)).is_some()
}
