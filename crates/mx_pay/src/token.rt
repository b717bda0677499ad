//! Tokens.
ghost use Rattle.std.specs.Prelude.{◌≡◌, ◌↔◌, Some, IsSome, IfSome, IsAscii, nat_eq, refl, length};
ghost use Rattle.std.specs.Ordering.{nat_cmp};
ghost use Rattle.std.specs.Cmp.{partial_equiv_from_equiv};
ghost use Rattle.std.specs.Cmp.Lexicographic.{pointwise, slice_cmp, nat_list_eq_equiv, nat_list_cmp_total, texts_po, texts_ties};
ghost use Rattle.hex.specs.Hex.{encode_lower};
ghost use Rattle.mx_pay.specs.Tokens.{token_of, is_token, IsToken, IsTokenText, lower_case};

use std::cmp::Ordering;
use std::marker::Model;

/// How many bytes a token has.
pub const TOKEN_BYTES: usize = 16;

/// The token by which a caller is known: 16 bytes, written as 32 hexadecimal digits. Tokens are ordered by
/// their bytes. A contract sees a token as its bytes.
#[derive(Clone, Copy)]
pub struct Token {
    bytes: [u8; TOKEN_BYTES],
}

impl Model for Token {
    ghost use Rattle.std.specs.Prelude.{List, ℕ};

    ghost Value = { List ℕ };

    ghost view = { λ t. t.bytes };

    ghost inverse = { λ bytes. record { bytes = bytes } };
}

impl Token {
    /// The token that is written `text`, 32 hexadecimal digits of either case. None exactly where `text` is
    /// anything else.
    pub fn read(text: &str) -> Option<Token>
        ensures value { result ≡ token_of text.now }
        ensures accepted { IsSome result ↔ IsTokenText text.now }
        ensures text { IfSome result (λ token. encode_lower token ≡ lower_case text.now) }
    {
        Token::read_bytes(text.as_bytes())
    }

    /// The token that is written `text`, as `read` gives it, for bytes that need not be UTF-8. None exactly
    /// where they are anything else than 32 hexadecimal digits.
    pub fn read_bytes(text: &[u8]) -> Option<Token>
        ensures value { result ≡ token_of text.now }
        ensures accepted { IsSome result ↔ IsTokenText text.now }
        ensures text { IfSome result (λ token. encode_lower token ≡ lower_case text.now) }
    {
        let mut bytes = [0u8; TOKEN_BYTES];
        match hex::decode_to_slice(text, &mut bytes) {
            Ok(()) => Some(Token { bytes }),
            Err(_) => None,
        }
    }

    /// The 16 bytes of the token.
    pub fn as_bytes(&self) -> &[u8]
        ensures bytes { result.now ≡ self.now }
        ensures valid { IsToken self.now }
    {
        let bytes = self.bytes.as_slice();
        bytes
    }

    /// The 32 hexadecimal digits of the token, with letters in lower case.
    pub fn text(&self) -> [u8; 32]
        ensures value { result ≡ encode_lower self.now }
        ensures back { token_of result ≡ Some self.now }
        ensures length { length result ≡ 32 }
        ensures ascii { IsAscii result }
        ensures valid { IsToken self.now }
    {
        let mut digits = [0u8; 32];
        let _done = hex::encode_to_slice(self.as_bytes(), &mut digits);
        digits
    }
}

/// Whether two tokens are the same.
pub fn same_token(a: &Token, b: &Token) -> bool
    ensures value { result ≡ is_token a.now b.now }
    ensures first { IsToken a.now }
    ensures second { IsToken b.now }
{
    a.as_bytes().cmp(b.as_bytes()).is_eq()
}

impl PartialEq for Token {
    ghost eq = { pointwise nat_eq };

    ghost laws = { partial_equiv_from_equiv nat_list_eq_equiv };

    fn eq(&self, other: &Token) -> bool {
        self.as_bytes() == other.as_bytes()
    }
}

impl Eq for Token {
    ghost laws = { nat_list_eq_equiv };
}

impl PartialOrd for Token {
    ghost partial_cmp = { λ x y. Some (slice_cmp nat_cmp x y) };

    ghost laws = { texts_po };

    fn partial_cmp(&self, other: &Token) -> Option<Ordering> {
        Some(self.cmp(other))
    }
}

impl Ord for Token {
    ghost cmp = { slice_cmp nat_cmp };

    ghost total = { nat_list_cmp_total };

    ghost matches_partial_cmp = { λ x y. refl };

    ghost matches_eq = { texts_ties };

    fn cmp(&self, other: &Token) -> Ordering {
        self.as_bytes().cmp(other.as_bytes())
    }
}
