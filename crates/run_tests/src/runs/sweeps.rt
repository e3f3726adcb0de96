//! Devices that fail, after each number of bytes: the run ends there with status 1, and what it wrote is a beginning
//! of what it writes without a failure. Manual: "Exiting from m4", "Fast loading of frozen state".

use super::given::{FAILED_WRITE, ROOM, Seen};
use super::report::{joined, printed_seen};
use super::rows::Given::{Failing, File};
use super::rows::{Row, Start, bytes_of, compare, frozen_of, run_row};
use super::shows::agrees_by;
use super::whole_texts::Part::{First, Last, Names, Text};
use m4_engine::ending::Cause;
use m4_frozen::fault::{FrozenFault, FrozenKind};
use part_tests::report::Report;
use std::alloc::{AllocError, Global};
use std::process::Abort;
use std::test::Fail;

const DEFINES: &str = "V1\nF6,6\ndefinedefine\nT1,1\nab\n";

static FAILING: [Row; 4] = rows! {
    "an output that accepts three bytes of a greeting", "hi(`you')\n" => "Hel",
        start: Start::After("define(`hi',`Hello $1.')dnl\n"), room: (3, ROOM, ROOM), end: FAILED_WRITE;
    "messages that fail at once", "define(`b',`2')define(`a',`1')dumpdef(`b',`a',`dnl',`z')\n" => "",
        room: (ROOM, 0, ROOM), end: FAILED_WRITE;
    "a frozen text of which 20 bytes are accepted", "a define(`c',`d$1')a\n" => "b b\n",
        start: Start::Frozen(DEFINES), room: (ROOM, ROOM, 20), end: FAILED_WRITE,
        frozen_text: Some(&[Text("# m4 frozen state\nV1")]);
    "a frozen file whose reader returns five bytes", "a define(`c',`d$1')a\n" => "",
        start: Start::Broken("V1\nF6"),
        end: (1, Cause::Frozen(FrozenFault { kind: FrozenKind::Read, offset: 5 }), false),
        frozen_text: Some(&[]);
};

#[test]
fn a_device_fails_or_none(rt: HostRuntime) {
    compare(&rt, &FAILING);
    compare(&rt, &WHOLE);
}

// Runs over one file, and what they leave without a failure.
static WHOLE: [Row; 7] = rows! {
    "diversions out of order, which are frozen", "divert(2)two\ndivert(1)one\ndivert(2)dnl\n" => "",
        frozen_text: Some(&[First, Names, Text("D1,4\none\n\nD2,4\ntwo\n\n"), Last]);
    "diversions that are issued after a reload", "more\n" => "one\ntwo\nmore\n",
        start: Start::After("divert(2)two\ndivert(1)one\ndivert(2)dnl\n");
    "output and diversions from a frozen file", "x\ndivert(2)two\ndivert(1)one\ndivert(2)dnl\n" => "x\n",
        start: Start::Frozen("V1\nF6,6\ndivertdivert\nF3,3\ndnldnl\n"),
        frozen_text: Some(&[First, Text("F6,6\ndivertdivert\nF3,3\ndnldnl\nD1,4\none\n\nD2,4\ntwo\n\n"), Last]);
    "a state that is frozen again", "a define(`c',`d$1')a\n" => "b b\n", start: Start::Frozen(DEFINES),
        frozen_text: Some(&[First, Text("T1,1\nab\nT1,3\ncd$1\nF6,6\ndefinedefine\n"), Last]);
    "a placeholder that is frozen again", "regexp(`a',`b')!\n" => "!\n",
        start: Start::Frozen("V1\nF6,6\nregexpregexp\n"),
        messages: "m4:b.m4:1: Warning: builtin `regexp' requested by frozen file is not supported\n",
        frozen_text: Some(&[First, Text("F6,6\nregexpregexp\n"), Last]);
    "definitions as messages", "define(`b',`2')define(`a',`1')dumpdef(`b',`a',`dnl',`z')\n" => "\n",
        messages: "m4:a.m4:1: Warning: undefined macro `z'\na:\t`1'\nb:\t`2'\ndnl:\t<dnl>\n";
    "definitions as messages, from a frozen file", "dumpdef(`b',`a',`dnl',`z')\n" => "\n",
        start: Start::Frozen("V1\nF7,7\ndumpdefdumpdef\nT1,1\na1\nT1,1\nb2\nF3,3\ndnldnl\n"),
        messages: "m4:b.m4:1: Warning: undefined macro `z'\na:\t`1'\nb:\t`2'\ndnl:\t<dnl>\n",
        frozen_text: Some(&[First, Text("T1,1\na1\nT1,1\nb2\nF3,3\ndnldnl\nF7,7\ndumpdefdumpdef\n"), Last]);
};

/// The device that fails.
#[derive(Clone, Copy, Debug)]
enum Device {
    Frozen,
    File,
    Output,
    Messages,
    FrozenText,
}

/// Returns the text of a row's file.
fn file_of(row: &Row) -> &'static str {
    match row.files.first() {
        Some(File(text)) => text,
        _ => "",
    }
}

/// Runs a row, one of whose devices fails after this many bytes. The frozen file has the bytes given.
fn run_cut(
    alloc: Global,
    row: &Row,
    bytes: &[u8],
    (device, after): (Device, usize),
    block: usize,
) -> Result<Seen, AllocError> {
    let (file, files) = (file_of(row), row.files);
    let start = frozen_of(row.start, bytes);
    match device {
        Device::Frozen => {
            let cut = bytes.split_at(after.min(bytes.len())).0;
            run_row(alloc, row, Some((cut, true)), files, row.room, block)
        }
        Device::File => {
            let cut = [Failing(file.get(..after).unwrap_or(file))];
            run_row(alloc, row, start, &cut, row.room, block)
        }
        Device::Output => run_row(alloc, row, start, files, (after, ROOM, ROOM), block),
        Device::Messages => run_row(alloc, row, start, files, (ROOM, after, ROOM), block),
        Device::FrozenText => run_row(alloc, row, start, files, (ROOM, ROOM, after), block),
    }
}

/// Returns for how many numbers of bytes a device fails after them: a reader may have returned all of its text, and a
/// writer has not accepted all of its own.
fn failures_of(row: &Row, bytes: &[u8], frozen_text: &[u8], device: Device) -> usize {
    match (device, row.start) {
        (Device::Frozen, Start::Fresh) => 0,
        (Device::Frozen, _) => bytes.len().saturating_add(1),
        (Device::File, _) => file_of(row).len().saturating_add(1),
        (Device::Output, _) => row.output.len(),
        (Device::Messages, _) => row.messages.len(),
        (Device::FrozenText, _) => frozen_text.len(),
    }
}

/// Returns the cause of a run one of whose devices fails after this many bytes.
fn cause(device: Device, after: usize) -> Cause {
    match device {
        Device::Frozen => Cause::Frozen(FrozenFault {
            kind: FrozenKind::Read,
            offset: after as u64,
        }),
        Device::File => Cause::Read,
        Device::Output | Device::Messages | Device::FrozenText => Cause::Write,
    }
}

/// Returns whether a run wrote what it has to: the failed writer's text up to the failure, and of the others a
/// beginning. Only a failed write of the frozen text leaves any of it, and nothing is written if the frozen file is not
/// loaded.
fn is_right(row: &Row, whole: &[u8], device: Device, after: usize, seen: &Seen) -> bool {
    let output = seen.output();
    let messages = seen.messages();
    let frozen_text = seen.frozen_text();
    let begins = row.output.as_bytes().starts_with(output)
        && row.messages.as_bytes().starts_with(messages);
    let left = match device {
        Device::Frozen => output.is_empty() && messages.is_empty() && frozen_text.is_empty(),
        Device::File => frozen_text.is_empty(),
        Device::Output => output.len() == after && frozen_text.is_empty(),
        Device::Messages => messages.len() == after && frozen_text.is_empty(),
        Device::FrozenText => {
            output == row.output.as_bytes()
                && messages == row.messages.as_bytes()
                && whole.starts_with(frozen_text)
                && frozen_text.len() == after
        }
    };
    let (status, found, _) = seen.end;
    begins && left && status == 1 && found == cause(device, after)
}

/// How many bytes devices return and accept at a time while one fails.
const SIZES: [usize; 2] = [2, 4096];

/// Returns what is printed as expected where a run is not right: the device that fails, and after how many bytes.
fn failure(alloc: Global, device: Device, after: usize) -> Result<Vec<u8>, AllocError> {
    let mut report = Report::new(alloc);
    report.print(&device);
    report.counted(b" fails after ", after);
    report.text()
}

/// Lets a device fail after this many bytes. The frozen file and the frozen text are given.
fn fail_after(
    rt: &(impl Abort + Alloc<A = Global>),
    row: &Row,
    (bytes, whole): (&[u8], &[u8]),
    (device, after): (Device, usize),
    block: usize,
) -> Result<(), AllocError> {
    let seen = run_cut(rt.alloc(), row, bytes, (device, after), block)?;
    if !is_right(row, whole, device, after, &seen) {
        let want = failure(rt.alloc(), device, after);
        agrees_by(rt, row.name, block, want, printed_seen(rt.alloc(), &seen));
    }
    Ok(())
}

/// Lets a device fail after each number of bytes of its text.
fn sweep(
    rt: &(impl Abort + Alloc<A = Global>),
    row: &Row,
    device: Device,
) -> Result<(), AllocError> {
    let whole = joined(rt.alloc(), row.frozen_text.unwrap_or(&[]))?;
    let bytes = bytes_of(rt.alloc(), row.start, 4096)?;
    for after in 0..failures_of(row, &bytes, &whole, device) {
        for block in SIZES {
            fail_after(rt, row, (&bytes, &whole), (device, after), block)?;
        }
    }
    Ok(())
}

/// Lets each of these devices fail, in each run.
fn sweep_all(rt: &(impl Abort + Alloc<A = Global>), devices: &[Device]) -> Result<(), Fail> {
    for row in &WHOLE {
        for &device in devices {
            sweep(rt, row, device)?;
        }
    }
    Ok(())
}

#[test]
fn readers_fail_after_each_byte(rt: HostRuntime) -> Result<(), Fail> {
    sweep_all(&rt, &[Device::Frozen, Device::File])
}

#[test]
fn writers_fail_after_each_byte(rt: HostRuntime) -> Result<(), Fail> {
    sweep_all(&rt, &[Device::Output, Device::Messages, Device::FrozenText])
}
