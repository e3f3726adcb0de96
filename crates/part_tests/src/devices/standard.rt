//! Devices over scripted readers and writers of std.

use super::take_all;
use crate::report::Report;
use crate::shows::shows;
use m4_state::device::{ByteSink, DeviceFault};
use m4_state::standard::{StdSink, StdSource};
use m4_state::transfer::write_all;
use std::alloc::{AllocError, Global};
use std::io;
use std::io::{Read, Write};

// The result of a call of a reader or a writer.
#[derive(Clone, Copy)]
enum Answer {
    // Returns these bytes.
    Gives(&'static [u8]),
    // Writes at most this many bytes.
    Takes(usize),
    // Fails.
    Fails,
}

// A reader and writer with scripted results; the last one is repeated.
#[derive(Drop)]
struct Scripted {
    script: &'static [Answer],
    taken: Vec<u8>,
}

impl Scripted {
    // Returns the next result; the last one stays.
    fn next(&mut self) -> Answer {
        match self.script {
            [] => Answer::Fails,
            [last] => *last,
            [first, rest @ ..] => {
                self.script = rest;
                *first
            }
        }
    }
}

// Returns an error of a device.
fn broken() -> io::Error {
    io::Error::from(io::ErrorKind::BrokenPipe)
}

impl Read for Scripted {
    fn read(&mut self, buf: &mut [u8]) -> io::Result<usize> {
        match self.next() {
            Answer::Gives(bytes) => {
                let n = bytes.len().min(buf.len());
                buf[..n].copy_from_slice(&bytes[..n]);
                Ok(n)
            }
            Answer::Takes(_) => Ok(0),
            Answer::Fails => Err(broken()),
        }
    }
}

impl Write for Scripted {
    fn write(&mut self, buf: &[u8]) -> io::Result<usize> {
        match self.next() {
            Answer::Takes(most) => {
                let n = most.min(buf.len());
                self.taken.extend_from_slice(&buf[..n])?;
                Ok(n)
            }
            Answer::Gives(_) => Ok(0),
            Answer::Fails => Err(broken()),
        }
    }

    // Fails if nothing but a fault is left.
    fn flush(&mut self) -> io::Result<()> {
        match self.script {
            [Answer::Fails] => Err(broken()),
            _ => Ok(()),
        }
    }
}

// A row's name, the results of a reader, and the bytes read from it.
static READERS: [(&str, &[Answer], &[u8]); 4] = rows! {
    "a reader that ends", &[Answer::Gives(b"\x00ab"), Answer::Gives(b"c\xff"), Answer::Gives(b"")] =>
        b"\x00abc\xff; ended";
    "a reader that fails in mid-stream",
        &[Answer::Gives(b"ab"), Answer::Gives(b"cde"), Answer::Fails, Answer::Gives(b"fgh"), Answer::Gives(b"")] =>
        b"abcde; failed";
    "a reader that fails at once", &[Answer::Fails] => b"; failed";
    "a reader that gives nothing", &[Answer::Gives(b"")] => b"; ended";
};

// Reads all of a reader, and reports how it ends.
fn taken_of(alloc: Global, script: &'static [Answer]) -> Result<Vec<u8>, AllocError> {
    let mut reader = StdSource::new(Scripted {
        script,
        taken: Vec::new(alloc),
    });
    let mut bytes = Vec::new(alloc);
    let failed = take_all(&mut reader, &mut bytes)?;
    let mut report = Report::new(alloc);
    report.add(&bytes);
    report.add(if failed { b"; failed" } else { b"; ended" });
    report.text()
}

#[test]
fn all_is_taken_of_a_reader(rt: HostRuntime) {
    for &(name, script, want) in &READERS {
        shows(&rt, name, want, taken_of(rt.alloc(), script));
    }
}

// A row's name, the results of a writer, and the report on writing all of `abcdefgh` to it, then `ij` once, and on a
// flush: the bytes that arrived, whether the first was written, the result of the second, and whether it was flushed.
static WRITERS: [(&str, &[Answer], &[u8]); 5] = rows! {
    "a writer that takes all", &[Answer::Takes(4096)] => b"abcdefghij; put; 2; flushed";
    "a writer that takes 3 bytes at a time", &[Answer::Takes(3)] => b"abcdefghij; put; 2; flushed";
    "a writer that answers 0", &[Answer::Takes(3), Answer::Takes(0)] => b"abc; fault; fault; flushed";
    "a writer that fails", &[Answer::Takes(3), Answer::Fails] => b"abc; fault; fault; fault";
    "a writer that fails once", &[Answer::Takes(3), Answer::Fails, Answer::Takes(1)] => b"abci; fault; 1; flushed";
};

// Adds the results of writing all of some bytes, and of writing once.
fn describe_puts(
    first: Result<(), DeviceFault>,
    second: Result<usize, DeviceFault>,
    report: &mut Report,
) {
    match first {
        Ok(()) => report.add(b"; put"),
        Err(DeviceFault) => report.add(b"; fault"),
    }
    match second {
        Ok(n) => report.counted(b"; ", n),
        Err(DeviceFault) => report.add(b"; fault"),
    }
}

// Reports writing bytes to a writer.
fn put_into(alloc: Global, script: &'static [Answer]) -> Result<Vec<u8>, AllocError> {
    let mut scripted = Scripted {
        script,
        taken: Vec::new(alloc),
    };
    let mut writer = StdSink::new(&mut scripted);
    let first = write_all(&mut writer, b"abcdefgh");
    let second = writer.put(b"ij");
    let flushed = writer.flush();
    let mut report = Report::new(alloc);
    report.add(&scripted.taken);
    describe_puts(first, second, &mut report);
    report.add(match flushed {
        Ok(()) => b"; flushed",
        Err(DeviceFault) => b"; fault",
    });
    report.text()
}

#[test]
fn what_a_writer_takes_is_put_once(rt: HostRuntime) {
    for &(name, script, want) in &WRITERS {
        shows(&rt, name, want, put_into(rt.alloc(), script));
    }
}
