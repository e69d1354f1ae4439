ghost use Rattle.std.specs.Prelude.{ℕ, List, Option, IfErr, OnOk};
ghost use Rattle.std.specs.Io.KnownBytes.{Appends};
ghost use Rattle.std_io.specs.declared.io.error.Error.{Error};

use std::io;
use std::io::Write;

/// A target of texts, and the known facts of its writes.
pub trait TextWriter {
    /// The bytes that it holds, if they are known.
    ghost contents: { Self → Option (List ℕ) };

    /// With which errors a write may fail.
    ghost write_fails: { Error → Type 0 };

    /// Writes a text. If that fails, nothing is known of the bytes that it holds.
    fn write_text(&mut self, text: &[u8]) -> io::Result<()>
        ensures ok { OnOk result (Appends (contents self.old) (contents self.new) text.now) }
        ensures fault { IfErr result (λ e. write_fails e) };
}

/// A write of any writer may fail at any time.
impl<W: Write> TextWriter for W {
    ghost contents = { λ w. W.contents w };

    ghost write_fails = { λ _. Unit {0} };

    fn write_text(&mut self, text: &[u8]) -> io::Result<()> {
        self.write_all(text)
    }
}
