ghost use Rattle.std.specs.Prelude.{◌≡◌, ◌≤◌, length, take, None, Err};
ghost use Rattle.std.specs.Io.KnownBytes.{Appends};
ghost use Rattle.qt_outside.specs.Causes.{Grows, PutCause};
ghost use Rattle.qt_adapters.specs.Adapters.{Written};

use qt_outside::faults::PutFault;
use qt_outside::sink::Sink;
use std::io::Write;
use std::marker::Model;

/// A sink over a writer of the system. As a sink it doesn't tell what it holds; contracts see its count of faults, and
/// the bytes that the writer holds, where it tells them.
#[derive(Drop)]
pub struct WriterSink<W: Write + Drop> {
    writer: W,
    faults: u64,
}

impl<W: Write + Drop> Model for WriterSink<W> {
    ghost use Rattle.qt_adapters.specs.Adapters.{WriterSinkState};

    ghost Value = { WriterSinkState };

    ghost view = { λ s. record { faults = s.faults; held = W.contents s.writer } };
}

impl<W: Write + Drop> WriterSink<W> {
    /// A sink that hasn't failed.
    pub fn new(writer: W) -> WriterSink<W>
        ensures { result ≡ record { faults = 0; held = W.contents writer } }
    {
        WriterSink { writer, faults: 0 }
    }

    // Writes a part of the bytes, and gives how many the writer took: none where it fails.
    #[tactic(auto, using(crate::proofs::Writing::taken))]
    fn write_part(&mut self, bytes: &[u8]) -> usize
        ensures within { result ≤ length bytes.now }
        ensures faults { self.new.faults ≡ self.old.faults }
        ensures held { Appends self.old.held self.new.held (take result bytes.now) }
    {
        self.writer.write(bytes).unwrap_or(0)
    }

    // Counts a fault.
    fn fail(&mut self) -> PutFault
        ensures held { self.new.held ≡ self.old.held }
        ensures cause { PutCause self.old.faults self.new.faults 0 0 (Err result) }
    {
        self.faults = self.faults.saturating_add(1);
        PutFault::Failed
    }
}

impl<W: Write + Drop> Sink for WriterSink<W> {
    ghost use Rattle.std.specs.Prelude.{None};

    ghost bytes = { λ _. None };

    ghost faults = { λ s. s.faults };

    ghost wants = { λ _. 0 };

    fn put(&mut self, piece: &[u8]) -> Result<(), PutFault>
        // As of every sink.
        ensures bytes { Grows None None piece.now result }
        ensures cause { PutCause self.old.faults self.new.faults 0 0 result }

        // The writer took the piece, or a prefix of a piece that was refused.
        ensures written { Written self.old.held self.new.held piece.now result }
    {
        let mut rest = piece;
        while !rest.is_empty() {
            let count = self.write_part(rest);
            if count == 0 {
                return Err(self.fail());
            }
            (_, rest) = rest.split_at(count);
        }
        Ok(())
    }
}
