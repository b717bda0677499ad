//! The rows of a roll, as its records spell them.
ghost use Rattle.std.specs.Prelude.{◌≡◌, ◌≢◌, IsTrue, IsFalse, IfSome, IfNone, length, ◌∷◌, []};
ghost use Rattle.csv.specs.Records.{fields_of};
ghost use Rattle.mx_report.specs.Roll.{roll_header, name_in, member_in, holder_in, purse_in, row_in, row_of, command_of};

use csv::ByteRecord;
use mx_command::Command;
use mx_pay::{Name, Token};

/// A row of a roll.
#[derive(Clone, Copy)]
pub(crate) enum RollRow {
    /// A member.
    Member {
        /// The member.
        member: Name,
        /// The token of its clerk.
        token: Token,
    },
    /// A holder.
    Holder {
        /// The holder.
        holder: Name,
        /// The holder's member.
        member: Name,
        /// The holder's token.
        token: Token,
    },
    /// A purse.
    Purse {
        /// The purse.
        purse: Name,
        /// The purse's holder.
        holder: Name,
    },
}

impl RollRow {
    /// The command that adds what the row says.
    #[tactic(auto, unfolding(crate::specs::Roll::command_of))]
    pub(crate) fn command(&self) -> Command
        ensures { result ≡ command_of self.now }
    {
        match *self {
            RollRow::Member { member, token } => Command::NewMember { member, token },
            RollRow::Holder { holder, token, .. } => Command::NewHolder { holder, token },
            RollRow::Purse { purse, holder } => Command::NewPurse { purse, holder },
        }
    }
}

/// The four fields of a record; None where it has another number of them.
fn four_fields(entry: &ByteRecord) -> Option<(&[u8], &[u8], &[u8], &[u8])>
    ensures some { IfSome result
        (λ f. fields_of entry.now ≡ f.0.now ∷ f.1.now ∷ f.2.now ∷ f.3.now ∷ []) }
    ensures none { IfNone result (length (fields_of entry.now) ≢ 4) }
{
    if entry.len() != 4 {
        return None;
    }
    Some((entry.get(0)?, entry.get(1)?, entry.get(2)?, entry.get(3)?))
}

/// Whether a record is the first one of a roll.
pub(crate) fn is_roll_header(entry: &ByteRecord) -> bool
    ensures yes { IsTrue result → fields_of entry.now ≡ roll_header }
    ensures no { IsFalse result → fields_of entry.now ≢ roll_header }
{
    match four_fields(entry) {
        Some((kind, name, of, token)) => {
            kind == b"kind".as_slice()
                && name == b"name".as_slice()
                && of == b"of".as_slice()
                && token == b"token".as_slice()
        }
        None => false,
    }
}

/// The name in a field.
fn name_in(field: &[u8]) -> Option<Name>
    ensures { result ≡ name_in field.now }
{
    match str::from_utf8(field) {
        Ok(text) => Name::read(text),
        Err(_) => None,
    }
}

/// The row of a member: its name, an empty field, and the token of its clerk.
fn member_in(name: &[u8], of: &[u8], token: &[u8]) -> Option<RollRow>
    ensures { result ≡ member_in name.now of.now token.now }
{
    if !of.is_empty() {
        return None;
    }
    Some(RollRow::Member {
        member: name_in(name)?,
        token: Token::read_bytes(token)?,
    })
}

/// The row of a holder: its name, the member, and the holder's token.
fn holder_in(name: &[u8], of: &[u8], token: &[u8]) -> Option<RollRow>
    ensures { result ≡ holder_in name.now of.now token.now }
{
    Some(RollRow::Holder {
        holder: name_in(name)?,
        member: name_in(of)?,
        token: Token::read_bytes(token)?,
    })
}

/// The row of a purse: its name, the holder, and an empty field.
fn purse_in(name: &[u8], of: &[u8], token: &[u8]) -> Option<RollRow>
    ensures { result ≡ purse_in name.now of.now token.now }
{
    if !token.is_empty() {
        return None;
    }
    Some(RollRow::Purse {
        purse: name_in(name)?,
        holder: name_in(of)?,
    })
}

/// The row of four fields.
#[tactic(auto, unfolding(crate::specs::Roll::row_in))]
fn row_in(kind: &[u8], name: &[u8], of: &[u8], token: &[u8]) -> Option<RollRow>
    ensures { result ≡ row_in kind.now name.now of.now token.now }
{
    if kind == b"member".as_slice() {
        member_in(name, of, token)
    } else if kind == b"holder".as_slice() {
        holder_in(name, of, token)
    } else if kind == b"purse".as_slice() {
        purse_in(name, of, token)
    } else {
        None
    }
}

/// The row that a record spells; None where it is of no row's form.
pub(crate) fn row_of(entry: &ByteRecord) -> Option<RollRow>
    ensures { result ≡ row_of (fields_of entry.now) }
{
    let (kind, name, of, token) = four_fields(entry)?;
    row_in(kind, name, of, token)
}
