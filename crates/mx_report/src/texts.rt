//! Texts of comma-separated values.
ghost use Rattle.std.specs.Prelude.{◌≡◌, ◌++◌, [], IfOk, map};
ghost use Rattle.mx_report.specs.Statement.{record_text};

use csv::{Writer, WriterBuilder};
use std::alloc::{AllocError, Global};
use std::marker::Model;

/// A text of records. A contract sees its bytes.
#[derive(Drop)]
pub(crate) struct Text {
    writer: Writer<Vec<u8>>,
}

impl Model for Text {
    ghost use Rattle.std.specs.Prelude.{◌≡◌, ◌++◌, List, ℕ, false};
    ghost use Rattle.csv.specs.Writing.{default_writer, fields_written, has_written, writer_pending, writer_setup, writer_under};

    ghost Value = { List ℕ };

    ghost view = { λ t. (writer_under t.writer).items ++ writer_pending t.writer };

    ghost invariant = { λ t. (writer_setup t.writer ≡ default_writer) × (fields_written t.writer ≡ 0) × (has_written t.writer ≡ false) };
}

impl Text {
    /// A text without records.
    pub(crate) fn new(alloc: Global) -> Text
        ensures { result ≡ [] }
    {
        Text {
            writer: WriterBuilder::new().from_writer(Vec::new(alloc)),
        }
    }

    /// The text with a record of these fields at its end. An error is lack of memory.
    pub(crate) fn with_record(mut self, fields: &[&[u8]]) -> Result<Text, AllocError>
        ensures { IfOk result (λ text. text ≡ self ++ record_text (map (λ f. f.now) fields.now)) }
    {
        match self.writer.write_fields(fields) {
            Ok(()) => Ok(self),
            Err(_) => Err(AllocError),
        }
    }

    /// The bytes of the text. An error is lack of memory.
    pub(crate) fn into_bytes(self) -> Result<Vec<u8>, AllocError>
        ensures { IfOk result (λ bytes. bytes.items ≡ self) }
    {
        match self.writer.into_inner() {
            Ok(bytes) => Ok(bytes),
            Err(_) => Err(AllocError),
        }
    }
}
