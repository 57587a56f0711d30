// What the programs that people use share: arguments, what is reported on standard error, files opened and read, bytes printed. No
// contract can say which bytes are read or written.
#![tactic(auto)]

ghost use Rattle.std.specs.Prelude.{◌≡◌, cond, ◌+◌, ◌<◌, ◌≤◌, length, leb, IfOk, IsErr};
ghost use Rattle.command.specs.Orders.{Reflexive, Transitive};
ghost use Rattle.ppm.specs.Words.{parse_number, format_named};

use pixel::Format;
use std::env::FillError;
use std::io::{Cursor, ErrorKind, Read, Write};
use std::rt::{Env, Files};
use std::{fs, io};

// ---- buffers

// 4,096 zeros, which hold any path. The `ensures` gives only the length, which lending the array as a slice needs.
pub fn buffer() -> [u8; 4096]
    ensures { 4096 ≡ length result }
{
    [0; 4096]
}

// 65,536 zeros, for a loop that moves much data and would spend its time on calls of 4,096 bytes.
pub fn large_buffer() -> [u8; 65536]
    ensures { 65536 ≡ length result }
{
    [0; 65536]
}

// ---- standard error

// That something failed. What did was reported on standard error, if that could be written to.
#[derive(Clone, Copy, Debug, PartialEq, Eq)]
pub struct Failed;

// What was handed to the system to write: so many bytes; and whether it took them.
#[derive(Clone, Copy)]
pub struct Printed {
    pub size: usize,
    pub outcome: Result<(), Failed>,
}

// Hands a text to the system, for standard error. Bytes that are no UTF-8 are shown as the replacement character.
fn report(rt: &impl Eprint, text: &[u8]) -> bool {
    let mut is_written = true;
    for chunk in text.utf8_chunks() {
        is_written &= rt.eprint(chunk.valid()).is_ok();
        if !chunk.invalid().is_empty() {
            is_written &= rt.eprint('\u{FFFD}').is_ok();
        }
    }
    is_written
}

// An error's text without ` (os error N)`, which std adds to the system's words.
fn without_number(text: &str) -> &str {
    match text.split_once(" (os error ") {
        Some((words, _)) => words,
        None => text,
    }
}

// Reports what failed, as the caller names it, and why, in the system's words.
fn fail(rt: &impl Eprint, what: &[u8], error: io::Error) {
    let mut text = [0u8; 320];
    let mut line = Cursor::new(&mut text[..]);
    let is_whole = write!(line, "{error}").is_ok();
    let end = line.position().min(320) as usize;
    report(rt, what);
    report(rt, b": ");
    if let Ok(words) = str::from_utf8(&text[..end]) {
        report(rt, without_number(words).as_bytes());
    }
    report(rt, b"\n");
}

// Hands two texts to the system, for standard error: what, and what is wrong with it. Whether it took them is the system's, and no
// contract can say which.
pub fn complain(rt: &impl Eprint, what: &[u8], why: &[u8]) -> Printed
    ensures { result.size ≡ length what.now + length why.now }
{
    let is_named = report(rt, what);
    let is_explained = report(rt, why);
    Printed {
        size: what.len() + why.len(),
        outcome: if is_named & is_explained {
            Ok(())
        } else {
            Err(Failed)
        },
    }
}

// ---- arguments

// How many arguments the program has, its own name among them.
pub fn argument_count(rt: &impl Env) -> usize {
    for index in 0..usize::MAX {
        if let Err(FillError::NotPresent) = rt.arg(index, &mut []) {
            return index;
        }
    }
    usize::MAX
}

// The text of an argument, put in a buffer. One that is missing or too long for the buffer counts as empty.
pub fn argument<'a>(rt: &impl Env, index: usize, text: &'a mut [u8]) -> &'a [u8]
    ensures { length result.now ≤ length text.old }
{
    let n = rt.arg(index, text).unwrap_or(0);
    &text[..n]
}

// The number that an argument's text is; that it is none is reported, with the argument's name. An argument that was too long for its buffer is an empty
// text (`argument`), and so no number.
pub fn number_in(rt: &impl Eprint, text: &[u8], name: &[u8]) -> Option<u32>
    ensures { result ≡ parse_number text.now }
{
    let number = ppm::number_of(text);
    if number.is_none() {
        complain(rt, name, b" is not a number from 0 to 4294967295\n");
    }
    number
}

// The format that an argument's text names; that it names none is reported.
pub fn format_in(rt: &impl Eprint, text: &[u8]) -> Option<Format>
    ensures { result ≡ format_named text.now }
{
    let format = ppm::format_named(text);
    if format.is_none() {
        complain(rt, b"FORMAT", b" is not argb8888, rgb888 or rgb565\n");
    }
    format
}

// ---- files

// An opened file, and its path.
#[derive(Drop)]
pub struct Opened<'a, F> {
    pub file: F,
    pub path: &'a [u8],
}

// The system's errors of an argument that is missing or too long for a buffer of a path's size (EINVAL and ENAMETOOLONG).
fn unfilled(error: FillError) -> io::Error {
    match error {
        FillError::NotPresent => io::Error::from_raw_os_error(22),
        FillError::TooLong => io::Error::from_raw_os_error(36),
    }
}

// Opens the file of a path for reading. Only a path that is text can be opened.
fn open_read<R: Files>(rt: &R, path: &[u8]) -> io::Result<R::File> {
    match str::from_utf8(path) {
        Ok(path) => fs::open(rt, path),
        Err(_) => Err(io::Error::new(ErrorKind::InvalidInput, "the path is not UTF-8")),
    }
}

// Opens the file that an argument names, whose path is put in a buffer. What failed is reported.
pub fn open_argument<'a, R: Files + Env + Eprint>(
    rt: &R,
    index: usize,
    path: &'a mut [u8],
) -> Result<Opened<'a, R::File>, Failed>
    ensures { IfOk result (λ opened. length opened.path.now ≤ length path.old) }
{
    let length = match rt.arg(index, path) {
        Ok(length) => length,
        Err(error) => {
            fail(rt, b"FILE", unfilled(error));
            return Err(Failed);
        }
    };
    let path = &path[..length];
    match open_read(rt, path) {
        Ok(file) => Ok(Opened { file, path }),
        Err(error) => {
            fail(rt, path, error);
            Err(Failed)
        }
    }
}

// Reads once, into a buffer: the bytes that came, none at the end of the file. What failed is reported, with the file's name.
pub fn read_piece<'a>(
    rt: &impl Eprint,
    file: &mut impl Read,
    name: &[u8],
    piece: &'a mut [u8],
) -> Result<&'a [u8], Failed>
    ensures { IfOk result (λ came. length came.now ≤ length piece.old) }
{
    match file.read(piece) {
        Ok(count) => Ok(&piece[..count]),
        Err(error) => {
            fail(rt, name, error);
            Err(Failed)
        }
    }
}

// What is fed the bytes of a file, piece after piece.
pub trait Feed<R> {
    // What it may come to from what it is, whatever bytes it is fed.
    ghost Reaches: { Self → Self → Type 0 };

    // Takes a piece of the file, whole.
    fn feed(&mut self, rt: &R, piece: &[u8]) -> Result<(), Failed>
        ensures { Reaches self.old self.new };

    ghost reflexive: { Reflexive Reaches };

    ghost transitive: { Transitive Reaches };
}

// Reads once, and feeds what came; whether anything did.
fn read_some<R: Eprint, T: Feed<R>>(
    rt: &R,
    file: &mut impl Read,
    name: &[u8],
    reader: &mut T,
) -> Result<bool, Failed>
    ensures { T.Reaches reader.old reader.new }
{
    let mut piece = large_buffer();
    let came = read_piece(rt, file, name, &mut piece)?;
    if came.is_empty() {
        return Ok(false);
    }
    reader.feed(rt, came)?;
    Ok(true)
}

// Reads a file to its end, and feeds all of it. A proved loop has to end, and nothing says that a file does. So the turns are counted, up
// to a number that no run reaches.
pub fn read_all<R: Eprint, T: Feed<R>>(
    rt: &R,
    file: &mut impl Read,
    name: &[u8],
    reader: &mut T,
) -> Result<(), Failed>
    ensures { T.Reaches reader.old reader.new }
{
    for _ in 0..u64::MAX {
        if !read_some(rt, file, name, reader)? {
            break;
        }
    }
    Ok(())
}

// Hands the first n bytes of `out` to the system, for standard output. What did fail is reported on standard error. Where there are no n
// bytes none is handed over, and it did not go well; else whether it did is the system's, and no contract can say which.
// Kept (promise): what `print` says of an n past the buffer, which `&out[..n]` could not be asked for, stands in its contract.
pub fn print(rt: &(impl Print + Eprint), out: &[u8], n: usize) -> Printed
    ensures { (result.size ≡ cond (leb n (length out.now)) n 0) × (length out.now < n → IsErr result.outcome) }
{
    if out.len() < n {
        return Printed {
            size: 0,
            outcome: Err(Failed),
        };
    }
    let written = rt.write_all(&out[..n]);
    let is_written = written.is_ok();
    if let Err(error) = written {
        fail(rt, b"standard output", error);
    }
    Printed {
        size: n,
        outcome: if is_written { Ok(()) } else { Err(Failed) },
    }
}
