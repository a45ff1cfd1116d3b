//! What a text of scripts can't show: arguments, reads, writes and endings.
ghost use Rattle.std.specs.Prelude.{◌≤◌, IfOk, length};

use crate::ending::Ending;
use crate::input::read_all;
use crate::{exit_code, run};
use std::alloc::Allocator;
use std::env::FillError;
use std::fmt::Display;
use std::io;
use std::io::{BufRead, Read};
use std::process::{Abort, ExitCode};
use std::rt::Env;
use std::test::Fail;

// What a process reads: these bytes, or nothing but failures.
type Source = Result<&'static [u8], io::ErrorKind>;

#[derive(Drop)]
struct Reader(Source);

impl Read for Reader {
    fn read(&mut self, buf: &mut [u8]) -> io::Result<usize> {
        match &mut self.0 {
            Ok(bytes) => bytes.read(buf),
            Err(kind) => Err(io::Error::from(*kind)),
        }
    }
}

impl BufRead for Reader {
    fn fill_buf(&mut self) -> io::Result<&[u8]> {
        match self.0 {
            Ok(bytes) => Ok(bytes),
            Err(kind) => Err(io::Error::from(kind)),
        }
    }

    fn consume(&mut self, amount: usize) {
        if let Ok(bytes) = &mut self.0 {
            bytes.consume(amount);
        }
    }
}

// A process with one argument or none, its input, and an output that takes all or fails.
#[derive(Clone, Copy)]
struct Process {
    argument: Option<&'static [u8]>,
    source: Source,
    takes_output: bool,
}

impl Process {
    fn write(&self) -> io::Result<()> {
        let refused = io::Error::from(io::ErrorKind::BrokenPipe);
        self.takes_output.then_some(()).ok_or(refused)
    }
}

fn copy_into(bytes: &[u8], buf: &mut [u8]) -> Result<usize, FillError>
    ensures { IfOk result (λ len. len ≤ length buf.new) }
{
    if bytes.len() > buf.len() {
        return Err(FillError::TooLong);
    }
    buf[..bytes.len()].copy_from_slice(bytes);
    Ok(bytes.len())
}

impl Env for Process {
    fn arg(&self, i: usize, buf: &mut [u8]) -> Result<usize, FillError> {
        match (i, self.argument) {
            (0, _) => copy_into(b"gridscript", buf),
            (1, Some(word)) => copy_into(word, buf),
            _ => Err(FillError::NotPresent),
        }
    }

    fn var(&self, _name: &str, _buf: &mut [u8]) -> Result<usize, FillError> {
        Err(FillError::NotPresent)
    }

    fn var_at(&self, _i: usize, _buf: &mut [u8]) -> Result<usize, FillError> {
        Err(FillError::NotPresent)
    }
}

impl Input for Process {
    type Reader = Reader;

    fn read_line<A: Allocator + Clone>(&self, buf: &mut String<A>) -> io::Result<usize> {
        self.reader().read_line(buf)
    }

    fn lines<A: Allocator>(&self, alloc: A) -> io::Lines<Reader, A> {
        self.reader().lines(alloc)
    }

    fn reader(&self) -> Reader {
        Reader(self.source)
    }
}

impl Print for Process {
    fn print<D: Display + Drop>(&self, _value: D) -> io::Result<()> {
        self.write()
    }

    fn println<D: Display + Drop>(&self, _value: D) -> io::Result<()> {
        self.write()
    }

    fn write_all(&self, _bytes: &[u8]) -> io::Result<()> {
        self.write()
    }
}

const BROKEN: Source = Err(io::ErrorKind::BrokenPipe);

const REFUSED: Source = Err(io::ErrorKind::OutOfMemory);

const SCRIPT: Source = Ok(b"RowMajor 2 1 2 3 4\nflip_rows\n");

const BAD: Source = Ok(b"RowMajor 0\nsize\nsizes\n");

const DEFERRED: Option<&'static [u8]> = Some(b"deferred");

const USAGE: &str = "usage: gridscript [deferred]";

const TRANSFER: &str = "input or output failed";

// An argument or none, the input, whether output is taken; the status, and the text where no output is written. Bad
// arguments end a process before it reads, a failed read before it plays, and a script at fault before it writes.
const PROCESSES: [(Option<&'static [u8]>, Source, bool, u8, &str); 14] = [
    (None, SCRIPT, true, 0, ""),
    (DEFERRED, SCRIPT, true, 0, ""),
    (None, SCRIPT, false, 4, TRANSFER),
    (DEFERRED, SCRIPT, false, 4, TRANSFER),
    (Some(b"now"), BROKEN, false, 2, USAGE),
    (Some(b"Deferred"), BROKEN, false, 2, USAGE),
    (Some(b"--help"), BROKEN, false, 2, USAGE),
    (Some(b"\xff"), BROKEN, false, 2, USAGE),
    (Some(b""), BROKEN, false, 2, USAGE),
    (None, BROKEN, false, 4, TRANSFER),
    (DEFERRED, BROKEN, false, 4, TRANSFER),
    (None, REFUSED, false, 3, "out of memory"),
    (None, Ok(b""), false, 2, "line 1: bad grid"),
    (None, BAD, false, 2, "line 3: bad command"),
];

// A process ends with this status, and with this text where it writes no output.
fn check_run(
    rt: &(impl Abort + AllocGlobal),
    process: Process,
    status: u8,
    text: &str,
) -> Result<(), Fail> {
    let ended = run(&(process, rt.alloc()));
    assert_eq!(rt; exit_code(&ended), ExitCode::from(status), "of {text:?}");
    if let Err(ending) = &ended {
        assert_eq!(rt; ending.to_string(rt.alloc())?.as_str(), text);
    }
    Ok(())
}

#[test]
fn processes_end_with_their_status_and_text(rt: HostRuntime) -> Result<(), Fail> {
    for (argument, source, takes_output, status, text) in PROCESSES {
        let process = Process {
            argument,
            source,
            takes_output,
        };
        check_run(&rt, process, status, text)?;
    }
    Ok(())
}

// Gives `bytes` bytes, one at a time, each after an interrupted read, and then fails or ends.
#[derive(Drop)]
struct Drip {
    bytes: u32,
    interrupted: bool,
    fails: bool,
}

impl Read for Drip {
    fn read(&mut self, buf: &mut [u8]) -> io::Result<usize> {
        self.interrupted = !self.interrupted;
        if self.interrupted {
            return Err(io::Error::from(io::ErrorKind::Interrupted));
        }
        if self.bytes == 0 && self.fails {
            return Err(io::Error::from(io::ErrorKind::BrokenPipe));
        }
        if self.bytes == 0 || buf.is_empty() {
            return Ok(0);
        }
        self.bytes -= 1;
        buf[0] = b'x';
        Ok(1)
    }
}

fn check_drip(rt: &(impl Abort + AllocGlobal), bytes: u32, fails: bool, want: Option<usize>) {
    let mut reader = Drip {
        bytes,
        interrupted: false,
        fails,
    };
    let read = read_all(rt.alloc(), &mut reader).map_err(Ending::from);
    match (read, want) {
        (Ok(met), Some(len)) => assert_eq!(rt; met.len(), len),
        (Err(met), None) => assert_eq!(rt; met, Ending::Transfer),
        _ => panic!(rt; "{bytes} bytes were read, or were not"),
    }
}

// Two reads for each byte and two for the end: 524287 bytes are the most.
#[test]
fn reads_to_the_end_within_so_many_reads(rt: HostRuntime) {
    check_drip(&rt, 3, false, Some(3));
    check_drip(&rt, 524_287, false, Some(524_287));
    check_drip(&rt, 524_288, false, None);
    check_drip(&rt, 3, true, None);
}

#[test]
fn reads_more_than_one_buffer(rt: HostRuntime) -> Result<(), Fail> {
    let text = [b'y'; 10_000];
    let mut reader = text.as_slice();
    let whole = read_all(rt.alloc(), &mut reader)?;
    assert_eq!(rt; whole.as_slice(), text.as_slice());
    Ok(())
}
