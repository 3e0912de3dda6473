//! A device over a reader and writer that counts its calls, call by call.
use super::Device;
use std::io;
use std::io::{Error, ErrorKind, Read, Write};
use std::test::Fail;

/// A reader and writer that moves up to so many bytes a call, and fails at one call and in flush.
#[derive(Drop)]
struct Pieces {
    piece: usize,
    fails_at: u32,
    calls: u32,
    flushes: u32,
}

impl Pieces {
    fn turn(&mut self, room: usize) -> Option<usize> {
        self.calls = self.calls.saturating_add(1);
        if self.calls == self.fails_at {
            None
        } else {
            Some(self.piece.min(room))
        }
    }
}

impl Read for Pieces {
    fn read(&mut self, buf: &mut [u8]) -> io::Result<usize> {
        match self.turn(buf.len()) {
            Some(n) => Ok(n.min(buf.len())),
            None => Err(Error::from(ErrorKind::Interrupted)),
        }
    }
}

impl Write for Pieces {
    fn write(&mut self, buf: &[u8]) -> io::Result<usize> {
        match self.turn(buf.len()) {
            Some(n) => Ok(n.min(buf.len())),
            None => Err(Error::from(ErrorKind::Interrupted)),
        }
    }

    fn flush(&mut self) -> io::Result<()> {
        self.flushes = self.flushes.saturating_add(1);
        if self.flushes == self.fails_at {
            return Err(Error::from(ErrorKind::Interrupted));
        }
        Ok(())
    }
}

/// How many bytes a call has at most.
const MOST: usize = 70_000;

/// What is asked of a device, with so many bytes or room for them; `WriteBehind` behind so many others.
#[derive(Clone, Copy)]
enum Call {
    Read(usize),
    Write(usize),
    Flush,
    WriteAll(usize),
    WriteBehind(u64, usize),
    Send(usize),
}

/// What a call answers.
#[derive(Clone, Copy, PartialEq, Eq)]
enum Told {
    /// So many bytes were moved, or are out.
    Bytes(u64),
    Done,
    /// The error of a single call.
    Broken(ErrorKind),
    /// It failed behind so many bytes.
    BrokenAt(u64),
}

/// The reader's or the writer's own error.
const OWN: Told = Told::Broken(ErrorKind::Interrupted);

/// What else is known: the end was told, it was asked again, it isn't flushed, bytes were lost.
type Known = [bool; 4];

const NEW: Known = [false, false, false, false];

const ENDED: Known = [true, false, false, false];

const AGAIN: Known = [false, true, false, false];

const ENDED_AGAIN: Known = [true, true, false, false];

const UNFLUSHED: Known = [false, false, true, false];

const UNFLUSHED_AGAIN: Known = [false, true, true, false];

const UNFLUSHED_LOST: Known = [false, false, true, true];

/// What is asked and answered; and then the place of the first failure, what else is known, the bytes that were read
/// and the flushes.
type Step = (Call, Told, Option<u64>, Known, u64, u64);

/// A device over a `Pieces` of so many bytes a call, of which this call fails, where so much was counted before; and
/// the calls and flushes of the `Pieces` behind all steps.
struct Row {
    piece: usize,
    fails_at: u32,
    count: u64,
    flush_count: u64,
    steps: &'static [Step],
    calls: u32,
    flushes: u32,
}

#[rattlefmt::skip]
static ROWS: [Row; 30] = [
    // reads are counted
    Row { piece: 3, fails_at: 0, count: 0, flush_count: 0, calls: 3, flushes: 0, steps: &[
        (Call::Read(4), Told::Bytes(3), None, NEW, 3, 0),
        (Call::Read(4), Told::Bytes(3), None, NEW, 6, 0),
        (Call::Read(4), Told::Bytes(3), None, NEW, 9, 0),
    ] },
    // as much as there is room for
    Row { piece: 9, fails_at: 0, count: 0, flush_count: 0, calls: 2, flushes: 0, steps: &[
        (Call::Read(4), Told::Bytes(4), None, NEW, 4, 0),
        (Call::Read(4), Told::Bytes(4), None, NEW, 8, 0),
    ] },
    // a failed read, and one behind it
    Row { piece: 2, fails_at: 2, count: 0, flush_count: 0, calls: 3, flushes: 0, steps: &[
        (Call::Read(4), Told::Bytes(2), None, NEW, 2, 0),
        (Call::Read(4), OWN, Some(2), NEW, 2, 0),
        (Call::Read(4), Told::Bytes(2), Some(2), AGAIN, 4, 0),
    ] },
    // the end, and a failed read behind it
    Row { piece: 0, fails_at: 3, count: 0, flush_count: 0, calls: 3, flushes: 0, steps: &[
        (Call::Read(4), Told::Bytes(0), None, ENDED, 0, 0),
        (Call::Read(4), Told::Bytes(0), None, ENDED_AGAIN, 0, 0),
        (Call::Read(4), OWN, Some(0), ENDED_AGAIN, 0, 0),
    ] },
    // no room is no end
    Row { piece: 0, fails_at: 0, count: 0, flush_count: 0, calls: 1, flushes: 0, steps: &[
        (Call::Read(0), Told::Bytes(0), None, NEW, 0, 0),
    ] },
    // the count ends, and the reader isn't asked any more
    Row { piece: 9, fails_at: 0, count: u64::MAX - 6, flush_count: 0, calls: 3, flushes: 0, steps: &[
        (Call::Read(4), Told::Bytes(4), None, NEW, u64::MAX - 2, 0),
        (Call::Read(4), Told::Bytes(2), None, NEW, u64::MAX, 0),
        (Call::Read(0), Told::Bytes(0), None, NEW, u64::MAX, 0),
        (Call::Read(4), Told::Broken(ErrorKind::Other), Some(u64::MAX), NEW, u64::MAX, 0),
    ] },
    // writes, and one of no bytes
    Row { piece: 3, fails_at: 0, count: 0, flush_count: 0, calls: 3, flushes: 0, steps: &[
        (Call::Write(4), Told::Bytes(3), None, UNFLUSHED, 0, 0),
        (Call::Write(2), Told::Bytes(2), None, UNFLUSHED, 0, 0),
        (Call::Write(0), Told::Bytes(0), None, UNFLUSHED, 0, 0),
    ] },
    // a failed write, and those behind it
    Row { piece: 3, fails_at: 1, count: 0, flush_count: 0, calls: 3, flushes: 0, steps: &[
        (Call::Write(4), OWN, Some(0), UNFLUSHED, 0, 0),
        (Call::Write(4), Told::Bytes(3), Some(0), UNFLUSHED_AGAIN, 0, 0),
        (Call::Write(0), Told::Bytes(0), Some(0), UNFLUSHED_AGAIN, 0, 0),
    ] },
    // none of some bytes is a failure
    Row { piece: 0, fails_at: 0, count: 0, flush_count: 0, calls: 3, flushes: 0, steps: &[
        (Call::Write(0), Told::Bytes(0), None, UNFLUSHED, 0, 0),
        (Call::Write(1), Told::Bytes(0), Some(0), UNFLUSHED, 0, 0),
        (Call::Write(0), Told::Bytes(0), Some(0), UNFLUSHED_AGAIN, 0, 0),
    ] },
    // a failed write of no bytes
    Row { piece: 3, fails_at: 3, count: 0, flush_count: 0, calls: 3, flushes: 0, steps: &[
        (Call::Write(0), Told::Bytes(0), None, UNFLUSHED, 0, 0),
        (Call::Write(4), Told::Bytes(3), None, UNFLUSHED, 0, 0),
        (Call::Write(0), OWN, Some(0), UNFLUSHED, 0, 0),
    ] },
    // the place of a failed write is what was read
    Row { piece: 4, fails_at: 2, count: 0, flush_count: 0, calls: 2, flushes: 0, steps: &[
        (Call::Read(4), Told::Bytes(4), None, NEW, 4, 0),
        (Call::Write(4), OWN, Some(4), UNFLUSHED, 4, 0),
    ] },
    // flushes are handed on
    Row { piece: 1, fails_at: 0, count: 0, flush_count: 0, calls: 0, flushes: 2, steps: &[
        (Call::Flush, Told::Done, None, NEW, 0, 1),
        (Call::Flush, Told::Done, None, NEW, 0, 2),
    ] },
    // the first flush fails
    Row { piece: 1, fails_at: 1, count: 0, flush_count: 0, calls: 0, flushes: 2, steps: &[
        (Call::Flush, OWN, Some(0), NEW, 0, 1),
        (Call::Flush, Told::Done, Some(0), AGAIN, 0, 2),
    ] },
    // the second flush fails
    Row { piece: 1, fails_at: 2, count: 0, flush_count: 0, calls: 0, flushes: 2, steps: &[
        (Call::Flush, Told::Done, None, NEW, 0, 1),
        (Call::Flush, OWN, Some(0), NEW, 0, 2),
    ] },
    // flushes are counted, and what was written before them
    Row { piece: 3, fails_at: 0, count: 0, flush_count: 0, calls: 3, flushes: 2, steps: &[
        (Call::Write(0), Told::Bytes(0), None, UNFLUSHED, 0, 0),
        (Call::Flush, Told::Done, None, NEW, 0, 1),
        (Call::WriteAll(0), Told::Done, None, NEW, 0, 1),
        (Call::WriteAll(4), Told::Done, None, UNFLUSHED, 0, 1),
        (Call::Send(0), Told::Done, None, NEW, 0, 2),
    ] },
    // flushes are counted modulo 2^64
    Row { piece: 3, fails_at: 0, count: 0, flush_count: u64::MAX, calls: 0, flushes: 1, steps: &[
        (Call::Flush, Told::Done, None, NEW, 0, 0),
    ] },
    // long pieces are handed on whole
    Row { piece: 100_000, fails_at: 0, count: 0, flush_count: 0, calls: 2, flushes: 0, steps: &[
        (Call::Read(MOST), Told::Bytes(70_000), None, NEW, 70_000, 0),
        (Call::Write(MOST), Told::Bytes(70_000), None, UNFLUSHED, 70_000, 0),
    ] },
    // all is sent in pieces, and flushed once
    Row { piece: 3, fails_at: 0, count: 0, flush_count: 0, calls: 3, flushes: 1, steps: &[
        (Call::Send(7), Told::Done, None, NEW, 0, 1),
    ] },
    // the third write fails
    Row { piece: 3, fails_at: 3, count: 0, flush_count: 0, calls: 3, flushes: 0, steps: &[
        (Call::Send(7), Told::BrokenAt(6), Some(0), UNFLUSHED, 0, 0),
    ] },
    // nothing is taken
    Row { piece: 0, fails_at: 0, count: 0, flush_count: 0, calls: 1, flushes: 0, steps: &[
        (Call::Send(7), Told::BrokenAt(0), Some(0), UNFLUSHED, 0, 0),
    ] },
    // the first write fails
    Row { piece: 9, fails_at: 1, count: 0, flush_count: 0, calls: 1, flushes: 0, steps: &[
        (Call::Send(7), Told::BrokenAt(0), Some(0), UNFLUSHED, 0, 0),
    ] },
    // a write behind a failure
    Row { piece: 9, fails_at: 1, count: 0, flush_count: 0, calls: 2, flushes: 0, steps: &[
        (Call::WriteAll(3), Told::BrokenAt(0), Some(0), UNFLUSHED, 0, 0),
        (Call::Write(2), Told::Bytes(2), Some(0), UNFLUSHED_AGAIN, 0, 0),
    ] },
    // a flush behind a failure, which fails too
    Row { piece: 9, fails_at: 1, count: 0, flush_count: 0, calls: 1, flushes: 1, steps: &[
        (Call::WriteAll(3), Told::BrokenAt(0), Some(0), UNFLUSHED, 0, 0),
        (Call::Flush, OWN, Some(0), AGAIN, 0, 1),
    ] },
    // all of some bytes behind a failure
    Row { piece: 9, fails_at: 1, count: 0, flush_count: 0, calls: 2, flushes: 0, steps: &[
        (Call::WriteAll(3), Told::BrokenAt(0), Some(0), UNFLUSHED, 0, 0),
        (Call::WriteAll(2), Told::Done, Some(0), UNFLUSHED_AGAIN, 0, 0),
    ] },
    // all of no bytes asks nobody
    Row { piece: 9, fails_at: 1, count: 0, flush_count: 0, calls: 1, flushes: 0, steps: &[
        (Call::WriteAll(3), Told::BrokenAt(0), Some(0), UNFLUSHED, 0, 0),
        (Call::WriteAll(0), Told::Done, Some(0), UNFLUSHED, 0, 0),
    ] },
    // nor do bytes that can't be counted
    Row { piece: 9, fails_at: 1, count: 0, flush_count: 0, calls: 1, flushes: 0, steps: &[
        (Call::WriteAll(3), Told::BrokenAt(0), Some(0), UNFLUSHED, 0, 0),
        (Call::WriteBehind(u64::MAX, 2), Told::BrokenAt(u64::MAX), Some(0), UNFLUSHED_LOST, 0, 0),
    ] },
    // sending no bytes asks for a flush, which fails too
    Row { piece: 9, fails_at: 1, count: 0, flush_count: 0, calls: 1, flushes: 1, steps: &[
        (Call::WriteAll(3), Told::BrokenAt(0), Some(0), UNFLUSHED, 0, 0),
        (Call::Send(0), Told::BrokenAt(0), Some(0), AGAIN, 0, 1),
    ] },
    // behind others
    Row { piece: 3, fails_at: 0, count: 0, flush_count: 0, calls: 2, flushes: 0, steps: &[
        (Call::WriteBehind(5, 4), Told::Bytes(9), None, UNFLUSHED, 0, 0),
    ] },
    // behind others, and the second write fails
    Row { piece: 3, fails_at: 2, count: 0, flush_count: 0, calls: 2, flushes: 0, steps: &[
        (Call::WriteBehind(5, 4), Told::BrokenAt(8), Some(0), UNFLUSHED, 0, 0),
    ] },
    // behind so many that some are lost
    Row { piece: 9, fails_at: 0, count: 0, flush_count: 0, calls: 1, flushes: 0, steps: &[
        (Call::WriteBehind(u64::MAX - 2, 4), Told::BrokenAt(u64::MAX), Some(0), UNFLUSHED_LOST, 0, 0),
    ] },
];

/// What reading or writing once tells.
fn moved(answer: io::Result<usize>) -> Told {
    match answer {
        Ok(n) => Told::Bytes(n as u64),
        Err(e) => Told::Broken(e.kind()),
    }
}

/// What writing all the bytes tells.
fn written(answer: Result<(), u64>) -> Told {
    match answer {
        Ok(()) => Told::Done,
        Err(n) => Told::BrokenAt(n),
    }
}

/// Asks a device, and tells what it answers.
fn ask(device: &mut Device<Pieces>, call: Call) -> Told {
    let mut bytes = [0u8; MOST];
    match call {
        Call::Read(n) => moved(device.read(&mut bytes[..n.min(MOST)])),
        Call::Write(n) => moved(device.write(&bytes[..n.min(MOST)])),
        Call::Flush => match device.flush() {
            Ok(()) => Told::Done,
            Err(e) => Told::Broken(e.kind()),
        },
        Call::WriteAll(n) => written(device.write_all(&bytes[..n.min(MOST)])),
        Call::WriteBehind(before, n) => match device.write_behind(before, &bytes[..n.min(MOST)]) {
            Ok(n) => Told::Bytes(n),
            Err(n) => Told::BrokenAt(n),
        },
        Call::Send(n) => written(device.send(&bytes[..n.min(MOST)])),
    }
}

/// Whether this is what a device knows.
fn knows(device: &Device<Pieces>, step: &Step) -> bool {
    let (_, _, failed_at, known, count, flush_count) = *step;
    let seen = [
        device.ended(),
        device.asked_again(),
        device.unflushed(),
        device.lost(),
    ];
    device.failed_at() == failed_at
        && device.failed() == failed_at.is_some()
        && seen == known
        && device.count() == count
        && device.flush_count() == flush_count
}

/// How many steps of a row go as it says, one after the other.
fn steps_done(device: &mut Device<Pieces>, steps: &[Step]) -> usize {
    let mut done = 0usize;
    for step in steps {
        if ask(device, step.0) != step.1 || !knows(device, step) {
            break;
        }
        done = done.saturating_add(1);
    }
    done
}

#[test]
fn calls_are_handed_on_and_kept(rt: HostRuntime) -> Result<(), Fail> {
    for (number, row) in ROWS.iter().enumerate() {
        let mut device = Device::new(Pieces {
            piece: row.piece,
            fails_at: row.fails_at,
            calls: 0,
            flushes: 0,
        });
        device.count = row.count;
        device.flush_count = row.flush_count;
        let done = steps_done(&mut device, row.steps);
        let pieces = device.inner();
        assert_eq!(rt;
            (number, done, pieces.calls, pieces.flushes),
            (number, row.steps.len(), row.calls, row.flushes)
        );
    }
    Ok(())
}

#[test]
fn bytes_go_through(rt: HostRuntime) -> Result<(), Fail> {
    let mut from = Device::new(b"abcdefg".as_slice());
    let mut to = Device::new(Vec::new(rt.alloc()));
    let mut buf = [0u8; 4];
    for want in [4, 3, 0] {
        let n = from.read(&mut buf)?;
        assert_eq!(rt; n, want);
        assert_eq!(rt; to.write(&buf[..n])?, want);
    }
    to.flush()?;
    assert_eq!(rt; to.inner().as_slice(), b"abcdefg".as_slice());
    assert_eq!(rt;
        (from.count(), from.failed(), to.failed()),
        (7, false, false)
    );
    Ok(())
}
