//! The words of lines, as they stand in replies, in statements and in tables.
ghost use Rattle.std.specs.Prelude.{◌≡◌, ◌++◌, ◌↔◌, IfOk, Some, string_bytes};
ghost use Rattle.mx_book.specs.Words.{kind_text, note_text};

use crate::values::{LineKind, Note};
use mx_pay::push_entry;
use std::alloc::AllocError;

/// The word for a line: `loaded`, `redeemed`, `sent`, `received`, `logged` or `settled`.
pub fn kind_text(kind: LineKind) -> &'static str
    ensures { result.now ≡ kind_text kind }
{
    match kind {
        LineKind::Loaded => "loaded",
        LineKind::Redeemed => "redeemed",
        LineKind::Sent => "sent",
        LineKind::Received => "received",
        LineKind::Logged => "logged",
        LineKind::Settled => "settled",
    }
}

/// The kind of line of a word, or None where no line has it.
pub fn read_kind(word: &str) -> Option<LineKind>
    ensures { (kind : LineKind) → (result ≡ Some kind) ↔ (word.now ≡ kind_text kind) }
{
    match word {
        "loaded" => Some(LineKind::Loaded),
        "redeemed" => Some(LineKind::Redeemed),
        "sent" => Some(LineKind::Sent),
        "received" => Some(LineKind::Received),
        "logged" => Some(LineKind::Logged),
        "settled" => Some(LineKind::Settled),
        _ => None,
    }
}

/// Writes what a line refers to at the end of a text: its reference, or its details as one entry.
pub fn push_note(text: &mut String, note: &Note) -> Result<(), AllocError>
    ensures { IfOk result (λ _. string_bytes text.new
        ≡ string_bytes text.old ++ note_text note.now) }
{
    match note {
        Note::Reference(reference) => text.push_str(reference.as_str()),
        Note::Details(details) => push_entry(text, details),
    }
}
