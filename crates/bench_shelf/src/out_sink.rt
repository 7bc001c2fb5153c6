//! A sink over a writer.
ghost use Rattle.std.specs.Prelude.{◌≡◌, None, OnOk, IsErrOf};
ghost use Rattle.std.specs.Io.KnownBytes.{Appends};
ghost use Rattle.bench_shelf.specs.Counts.{counted};
ghost use Rattle.bench_shelf.specs.Sink.{Writes};

use crate::sink::{Sink, SinkFault};
use std::io;
use std::io::{ErrorKind, Write};

/// A sink over a writer, as standard output. It shows no bytes. Each text is passed on whole and then flushed. A writer that takes
/// nothing, fails or can't be flushed counts as a fault; one that wants memory does not.
#[derive(Drop)]
pub struct OutSink<W: Write> {
    inner: W,
    faults: u64,
}

impl<W: Write> OutSink<W> {
    /// A sink over this writer, without faults so far.
    pub fn new(out: W) -> OutSink<W>
        ensures writer { result.inner ≡ out }
        ensures no_faults { result.faults ≡ 0 }
    {
        OutSink {
            inner: out,
            faults: 0,
        }
    }
}

/// Writes the whole text, and flushes the writer.
fn pass_on<W: Write>(out: &mut W, bytes: &[u8]) -> io::Result<()>
    ensures { OnOk result (Appends (W.contents out.old) (W.contents out.new) bytes.now) }
{
    out.write_all(bytes)?;
    out.flush()
}

impl<W: Write> Sink for OutSink<W> {
    ghost written = { λ _. None };

    ghost faults = { λ s. s.faults };

    fn put(&mut self, bytes: &[u8]) -> Result<(), SinkFault>
        ensures writes { Writes (λ _. None) (λ s. s.faults) self.old self.new bytes.now result }
        ensures passed_on { OnOk result (Appends (W.contents self.old.inner) (W.contents self.new.inner) bytes.now) }
        ensures raised { IsErrOf result SinkFault.Failed → self.new.faults ≡ counted self.old.faults }
        ensures memory { IsErrOf result SinkFault.Memory → self.new.faults ≡ self.old.faults }
    {
        match pass_on(&mut self.inner, bytes) {
            Ok(()) => Ok(()),
            Err(error) => {
                if error.kind() == ErrorKind::OutOfMemory {
                    return Err(SinkFault::Memory);
                }
                self.faults = self.faults.saturating_add(1);
                Err(SinkFault::Failed)
            }
        }
    }
}
