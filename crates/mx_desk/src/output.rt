//! Whole texts to a writer that may take less.
ghost use Rattle.std.specs.Prelude.{◌≡◌, ◌+◌, ◌<◌, ◌≤◌, ◌++◌, ℕ, List, [], OnOk, OnErr, IfErr, length, take, drop};
ghost use Rattle.std.specs.Io.KnownBytes.{Appends, Keeps};
ghost use Rattle.mx_desk.specs.Devices.{capped};

use crate::counted::Counted;
use crate::fault::DeskFault;
use std::io::Write;

/// Writes the text, by as many writes as it takes. An error is `Write`, where a write failed or took nothing; then
/// the first part of the text was written, and not all of it.
pub fn write_out<W: Write>(writer: &mut Counted<W>, text: &[u8]) -> Result<(), DeskFault>
    ensures ok { OnOk result (Appends (W.contents writer.old.device)
        (W.contents writer.new.device) text.now
        × (writer.new.failures ≡ writer.old.failures)) }
    ensures err { OnErr result ((count : ℕ) × (count < length text.now)
        × Appends (W.contents writer.old.device) (W.contents writer.new.device)
        (take count text.now)
        × (writer.new.failures ≡ capped (writer.old.failures + 1))) }
    ensures fault { IfErr result (λ e. e ≡ DeskFault.Write) }
{
    let mut at = 0;
    while at < text.len() {
        match writer.write(&text[at..]) {
            Ok(0) => return Err(DeskFault::Write),
            Ok(count) => at += count,
            Err(_) => return Err(DeskFault::Write),
        }
    }
    Ok(())
}

/// Passes on what the writer still holds. An error is `Write`, where the flush failed.
pub fn flush_out<W: Write>(writer: &mut Counted<W>) -> Result<(), DeskFault>
    ensures bytes { Keeps (W.contents writer.old.device) (W.contents writer.new.device) }
    ensures ok { OnOk result (writer.new.failures ≡ writer.old.failures) }
    ensures err { OnErr result (writer.new.failures ≡ capped (writer.old.failures + 1)) }
    ensures fault { IfErr result (λ e. e ≡ DeskFault.Write) }
{
    match writer.flush() {
        Ok(()) => Ok(()),
        Err(_) => Err(DeskFault::Write),
    }
}
