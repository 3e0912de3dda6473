//! Readers and writers of which single calls can be told.
//!
//! What std says of `read`, `write` and `flush` tells a call from none, or from two, only where the bytes are known. So
//! each trait here has a relation for one call, of which nothing else is known: who has to show that it holds has to
//! make just that call. Every `Read` is a `Reader`, and every `Write` a `Writer`.
ghost use Rattle.std.specs.Prelude.{ℕ, List, Result, ⊤};
ghost use Rattle.std.specs.Io.{ReadsAtMost, WritesAtMost};
ghost use Rattle.std.specs.Io.KnownBytes.{ReadConsumes, WriteAppends, Keeps};
ghost use Rattle.std.specs.declared.io.Error.{Error};

use std::io;
use std::io::{Read, Write};

/// A reader of which one call can be told.
pub trait Reader: Read {
    /// One call of `read`: the reader and the buffer before it, its answer, and both behind it.
    ghost reads: { Self → List ℕ → Result ℕ Error → List ℕ → Self → Type 0 };

    /// Calls `read` once.
    fn read_once(&mut self, buf: &mut [u8]) -> io::Result<usize>
        ensures call { reads self.old buf.old result buf.new self.new }
        ensures bound { ReadsAtMost result buf.new }
        ensures bytes { ReadConsumes (Self.remaining self.old) (Self.remaining self.new) result buf.new };
}

impl<R: Read> Reader for R {
    ghost reads = { λ _ _ _ _ _. ⊤ };

    fn read_once(&mut self, buf: &mut [u8]) -> io::Result<usize> {
        self.read(buf)
    }
}

/// A writer of which one call can be told.
pub trait Writer: Write {
    /// One call of `write`: the writer before it, the bytes, its answer, and the writer behind it.
    ghost writes: { Self → List ℕ → Result ℕ Error → Self → Type 0 };

    /// One call of `flush`: the writer before it, its answer, and the writer behind it.
    ghost flushes: { Self → Result (Unit {0}) Error → Self → Type 0 };

    /// Calls `write` once.
    fn write_once(&mut self, buf: &[u8]) -> io::Result<usize>
        ensures call { writes self.old buf.now result self.new }
        ensures bound { WritesAtMost result buf.now }
        ensures bytes { WriteAppends (Self.contents self.old) (Self.contents self.new) result buf.now };

    /// Calls `flush` once.
    fn flush_once(&mut self) -> io::Result<()>
        ensures call { flushes self.old result self.new }
        ensures bytes { Keeps (Self.contents self.old) (Self.contents self.new) };
}

impl<W: Write> Writer for W {
    ghost writes = { λ _ _ _ _. ⊤ };

    ghost flushes = { λ _ _ _. ⊤ };

    fn write_once(&mut self, buf: &[u8]) -> io::Result<usize> {
        self.write(buf)
    }

    fn flush_once(&mut self) -> io::Result<()> {
        self.flush()
    }
}
