//! Sources and sinks of bytes.
ghost use Rattle.std.specs.Prelude.{◌≡◌, ◌≤◌, ℕ, List, Option, None, IfOk, OnErr, OnOk, length};
ghost use Rattle.std.specs.Io.{ReadsAtMost};
ghost use Rattle.std.specs.Io.KnownBytes.{Keeps, ReadConsumes, WriteAppends};
ghost use Rattle.mcf_solver.specs.Devices.{CountsOneFailure};

use mcf_numbers::Count;
use std::io;

/// A source failed to give bytes.
#[derive(Clone, Copy, Debug, PartialEq, Eq)]
pub struct SourceFault;

/// A sink failed to take bytes.
#[derive(Clone, Copy, Debug, PartialEq, Eq)]
pub struct SinkFault;

/// A source of bytes.
pub trait Source {
    // The bytes that are still to come, if the source names them.
    ghost remaining: { Self → Option (List ℕ) } = { λ _. None };

    // How often the source has failed.
    ghost failures: { Self → ℕ };

    /// Puts the next bytes at the beginning of a piece that isn't empty, and returns their number:
    /// at most the piece's length, and 0 only at the end.
    ///
    /// # Errors
    ///
    /// The source failed, and counted that.
    fn read(&mut self, piece: &mut [u8]) -> Result<usize, SourceFault>
        requires { 1 ≤ length piece.old }
        ensures bound { ReadsAtMost result piece.new }
        ensures bytes { ReadConsumes (remaining self.old) (remaining self.new) result piece.new }
        ensures failed { OnErr result (CountsOneFailure (failures self.old) (failures self.new)) }
        ensures worked { OnOk result (failures self.new ≡ failures self.old) };
}

/// A sink of bytes.
pub trait Sink {
    // The bytes that were taken, if the sink names them.
    ghost contents: { Self → Option (List ℕ) } = { λ _. None };

    // How often the sink has failed.
    ghost failures: { Self → ℕ };

    // The sink has passed on all that it took.
    ghost IsFinished: { Self → Type 0 };

    /// Takes at least one byte of a piece that isn't empty, from its beginning, and returns their
    /// number.
    ///
    /// # Errors
    ///
    /// The sink failed, counted that, and took nothing.
    fn write(&mut self, piece: &[u8]) -> Result<usize, SinkFault>
        requires { 1 ≤ length piece.now }
        ensures bound { IfOk result (λ count. (1 ≤ count) × (count ≤ length piece.now)) }
        ensures bytes { WriteAppends (contents self.old) (contents self.new) result piece.now }
        ensures failed { OnErr result (CountsOneFailure (failures self.old) (failures self.new)) }
        ensures worked { OnOk result (failures self.new ≡ failures self.old) };

    /// Passes on all that was taken.
    ///
    /// # Errors
    ///
    /// The sink failed, and counted that.
    fn finish(&mut self) -> Result<(), SinkFault>
        ensures finished { OnOk result (IsFinished self.new) }
        ensures bytes { Keeps (contents self.old) (contents self.new) }
        ensures failed { OnErr result (CountsOneFailure (failures self.old) (failures self.new)) }
        ensures worked { OnOk result (failures self.new ≡ failures self.old) };
}

/// A source over a reader. Each error of the reader counts as a failure, also an interrupted read,
/// and nothing is retried. The bytes that are still to come are those of the reader.
#[derive(Drop)]
pub struct FromReader<R> {
    reader: R,
    failed_reads: Count,
}

impl<R: io::Read> FromReader<R> {
    /// A source over a reader, which hasn't failed yet.
    pub fn new(reader: R) -> FromReader<R>
        ensures remaining { ⟦<FromReader<R> as Source>⟧.remaining result ≡ R.remaining reader }
        ensures failures { ⟦<FromReader<R> as Source>⟧.failures result ≡ 0 }
    {
        FromReader {
            reader,
            failed_reads: Count::zero(),
        }
    }
}

impl<R: io::Read> Source for FromReader<R> {
    ghost remaining = { λ source. R.remaining source.reader };

    ghost failures = { λ source. source.failed_reads.number };

    fn read(&mut self, piece: &mut [u8]) -> Result<usize, SourceFault> {
        match self.reader.read(piece) {
            Ok(count) => Ok(count),
            Err(_) => {
                self.failed_reads.add_one();
                Err(SourceFault)
            }
        }
    }
}

/// A sink over a writer. Each error of the writer, also an interrupted write, and each write that
/// takes no byte counts as a failure, and nothing is retried. The bytes that were taken are those
/// that the writer holds.
///
/// To finish is to flush the writer. A writer doesn't say where its bytes are then, so each such
/// sink counts as finished.
#[derive(Drop)]
pub struct IntoWriter<W> {
    writer: W,
    failures: Count,
}

impl<W: io::Write> IntoWriter<W> {
    /// A sink over a writer, which hasn't failed yet.
    pub fn new(writer: W) -> IntoWriter<W>
        ensures contents { ⟦<IntoWriter<W> as Sink>⟧.contents result ≡ W.contents writer }
        ensures failures { ⟦<IntoWriter<W> as Sink>⟧.failures result ≡ 0 }
    {
        IntoWriter {
            writer,
            failures: Count::zero(),
        }
    }

    // The fault of a call of the writer, which is counted.
    fn fault(&mut self) -> SinkFault
        ensures counted { CountsOneFailure self.old.failures.number self.new.failures.number }
        ensures kept { self.new.writer ≡ self.old.writer }
    {
        self.failures.add_one();
        SinkFault
    }
}

impl<W: io::Write> Sink for IntoWriter<W> {
    ghost contents = { λ sink. W.contents sink.writer };

    ghost failures = { λ sink. sink.failures.number };

    ghost IsFinished = { λ _. Unit };

    fn write(&mut self, piece: &[u8]) -> Result<usize, SinkFault> {
        match self.writer.write(piece) {
            Ok(0) | Err(_) => Err(self.fault()),
            Ok(count) => Ok(count),
        }
    }

    fn finish(&mut self) -> Result<(), SinkFault> {
        match self.writer.flush() {
            Ok(()) => Ok(()),
            Err(_) => Err(self.fault()),
        }
    }
}
