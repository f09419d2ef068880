//! A reader or a writer whose failures are counted, so that a contract can say that the device failed.
ghost use Rattle.std.specs.Prelude.{◌≡◌, ◌<◌, false, length, OnOk, OnErr, IfOk, IfErr};
ghost use Rattle.std.specs.Io.{ReadsAtMost, WritesAtMost};
ghost use Rattle.std.specs.Io.KnownBytes.{Keeps, ReadConsumes, WriteAppends};
ghost use Rattle.kmc_device.specs.Device.{Watched, RisesByOne, TellsOfPipe};

use std::io;
use std::io::{ErrorKind, Read, Write};
use std::marker::Model;

/// A reader or a writer, how many of its calls failed, how many of its reads gave bytes, and whether the last call that
/// failed was one to a pipe whose other end is closed. A call fails where it answers an error, of whatever kind, or where a
/// write of bytes takes none of them. Both numbers stay at their greatest value. Each call is passed on to the device.
#[derive(Drop)]
pub struct Counted<T> {
    inner: T,
    failures: u64,
    reads: u64,
    pipe_closed: bool,
}

impl<T> Model for Counted<T> {
    ghost Value = { Watched T };

    ghost view = { λ c. record { inner = c.inner; failures = c.failures; reads = c.reads; pipe_closed = c.pipe_closed } };
}

impl<T> Counted<T> {
    ghost use Rattle.std.specs.Borrow.{Lends, sem};
    ghost use Rattle.kmc_device.specs.contracts.counted.Counted.{the_row};

    /// The device with no failure yet.
    pub fn new(inner: T) -> Counted<T>
        ensures { result ≡ record { inner = inner; failures = 0; reads = 0; pipe_closed = false } }
    {
        Counted {
            inner,
            failures: 0,
            reads: 0,
            pipe_closed: false,
        }
    }

    /// How many calls failed, as far as a `u64` tells.
    pub fn failures(&self) -> u64
        ensures { result ≡ self.now.failures }
    {
        self.failures
    }

    /// How many reads gave bytes, as far as a `u64` tells.
    pub fn reads(&self) -> u64
        ensures { result ≡ self.now.reads }
    {
        self.reads
    }

    /// Whether the last call that failed was one to a pipe whose other end is closed (`BrokenPipe`): its reader has enough.
    pub fn is_pipe_closed(&self) -> bool
        ensures { result ≡ self.now.pipe_closed }
    {
        self.pipe_closed
    }

    /// The device, for calls that neither read nor write: they are not counted.
    pub fn inner_mut(&mut self) -> &mut T
        ensures value { result.now ≡ self.old.inner }
        ensures* writes_back { sem 𝓛 (Lends (the_row T.row) T.row self.entry result
            (λ w. record self.old { inner = w })) }
    {
        &mut self.inner
    }

    /// The device.
    pub fn into_inner(self) -> T
        ensures { result ≡ self.inner }
    {
        let Counted {
            inner,
            failures: _,
            reads: _,
            pipe_closed: _,
        } = self;
        inner
    }

    fn note(&mut self, pipe_closed: bool)
        ensures inner { self.new.inner ≡ self.old.inner }
        ensures failures { RisesByOne self.old.failures self.new.failures }
        ensures reads { self.new.reads ≡ self.old.reads }
        ensures pipe { self.new.pipe_closed ≡ pipe_closed }
    {
        self.failures = self.failures.saturating_add(1);
        self.pipe_closed = pipe_closed;
    }
}

impl<R: Read> Read for Counted<R> {
    ghost remaining = { λ c. R.remaining c.inner };

    fn read(&mut self, buf: &mut [u8]) -> io::Result<usize>
        ensures bound { ReadsAtMost result buf.new }
        ensures bytes { ReadConsumes (R.remaining self.old.inner)
            (R.remaining self.new.inner) result buf.new }
        ensures ok { OnOk result (self.new.failures ≡ self.old.failures) }
        ensures counted { IfOk result (λ n. 0 < n → RisesByOne self.old.reads self.new.reads) }
        ensures at_end { IfOk result (λ n. n ≡ 0 → self.new.reads ≡ self.old.reads) }
        ensures failed_reads { OnErr result (self.new.reads ≡ self.old.reads) }
        ensures failed { OnErr result (RisesByOne self.old.failures self.new.failures) }
        ensures pipe { IfErr result (TellsOfPipe self.new.pipe_closed) }
        ensures pipe_kept { OnOk result (self.new.pipe_closed ≡ self.old.pipe_closed) }
    {
        match self.inner.read(buf) {
            Ok(n) => {
                if n > 0 {
                    self.reads = self.reads.saturating_add(1);
                }
                Ok(n)
            }
            Err(e) => {
                self.note(e.kind() == ErrorKind::BrokenPipe);
                Err(e)
            }
        }
    }
}

impl<W: Write> Write for Counted<W> {
    ghost contents = { λ c. W.contents c.inner };

    fn write(&mut self, buf: &[u8]) -> io::Result<usize>
        ensures bound { WritesAtMost result buf.now }
        ensures bytes { WriteAppends (W.contents self.old.inner)
            (W.contents self.new.inner) result buf.now }
        ensures ok { IfOk result (λ n. 0 < n → self.new.failures ≡ self.old.failures) }
        ensures empty { OnOk result (length buf.now ≡ 0 → self.new.failures ≡ self.old.failures) }
        ensures reads { self.new.reads ≡ self.old.reads }
        ensures stuck { IfOk result (λ n. n ≡ 0 → 0 < length buf.now
            → RisesByOne self.old.failures self.new.failures) }
        ensures failed { OnErr result (RisesByOne self.old.failures self.new.failures) }
        ensures pipe { IfErr result (TellsOfPipe self.new.pipe_closed) }
        ensures pipe_kept { IfOk result (λ n. 0 < n → self.new.pipe_closed ≡ self.old.pipe_closed) }
        ensures pipe_stuck { IfOk result (λ n. n ≡ 0 → 0 < length buf.now
            → self.new.pipe_closed ≡ false) }
    {
        match self.inner.write(buf) {
            Ok(n) => {
                if n == 0 && !buf.is_empty() {
                    self.note(false);
                }
                Ok(n)
            }
            Err(e) => {
                self.note(e.kind() == ErrorKind::BrokenPipe);
                Err(e)
            }
        }
    }

    fn flush(&mut self) -> io::Result<()>
        ensures bytes { Keeps (W.contents self.old.inner) (W.contents self.new.inner) }
        ensures reads { self.new.reads ≡ self.old.reads }
        ensures ok { OnOk result (self.new.failures ≡ self.old.failures) }
        ensures failed { OnErr result (RisesByOne self.old.failures self.new.failures) }
        ensures pipe { IfErr result (TellsOfPipe self.new.pipe_closed) }
        ensures pipe_kept { OnOk result (self.new.pipe_closed ≡ self.old.pipe_closed) }
    {
        match self.inner.flush() {
            Ok(()) => Ok(()),
            Err(e) => {
                self.note(e.kind() == ErrorKind::BrokenPipe);
                Err(e)
            }
        }
    }
}
