//! Names.
ghost use Rattle.std.specs.Prelude.{◌≡◌, ◌≤◌, ◌+◌, Some, None, nat_eq, refl, if◌then◌else◌, IsTrue, not, ◌==◌};
ghost use Rattle.std.specs.Ordering.{nat_cmp};
ghost use Rattle.std.specs.Cmp.{partial_equiv_from_equiv};
ghost use Rattle.std.specs.Cmp.Lexicographic.{pointwise, slice_cmp, nat_list_eq_equiv, nat_list_cmp_total, texts_po, texts_ties};
ghost use Rattle.std.specs.List.{list_all, prefix_len};
ghost use Rattle.mx_pay.specs.Limits.{most_name_bytes};
ghost use Rattle.mx_pay.specs.Names.{is_name_text, is_name_byte, begins_with_letter, is_name, unpadded, word_at};

use std::cmp::Ordering;
use std::marker::Model;

/// How many bytes a name has at most.
pub const MOST_NAME_BYTES: usize = 24;

/// A name of a member, a holder or a purse, or a reference: 1 to 24 bytes of `a` to `z`, `0` to `9` and `-`,
/// the first a letter. Names are ordered by their bytes. A contract sees a name as its bytes.
#[derive(Clone, Copy)]
pub struct Name {
    // The text, and zeros behind it.
    bytes: [u8; MOST_NAME_BYTES],
}

impl Model for Name {
    ghost use Rattle.std.specs.Prelude.{ℕ, List};
    ghost use Rattle.mx_pay.specs.Names.{IsName, padded, unpadded};

    ghost Value = { List ℕ };

    ghost view = { λ n. unpadded n.bytes };

    ghost invariant = { λ n. IsName n.bytes };

    ghost inverse = { λ name. record { bytes = padded name } };

    ghost inverse_ok = { λ n h i. record { bytes = h.exact i } };
}

fn may_stand(b: u8) -> bool
    ensures { result ≡ is_name_byte b }
{
    b.is_ascii_lowercase() || b.is_ascii_digit() || b == b'-'
}

fn begins(bytes: &[u8]) -> bool
    ensures { result ≡ begins_with_letter bytes.now }
{
    match bytes {
        [] => false,
        [first, ..] => first.is_ascii_lowercase(),
    }
}

fn all_may_stand(bytes: &[u8]) -> bool
    ensures { result ≡ list_all is_name_byte bytes.now }
{
    bytes.iter().all(|b| may_stand(*b))
}

#[tactic(auto, unfolding(crate::specs::Names::is_name_text))]
fn is_text(bytes: &[u8]) -> bool
    ensures { result ≡ is_name_text bytes.now }
{
    bytes.len() <= MOST_NAME_BYTES && begins(bytes) && all_may_stand(bytes)
}

/// How many bytes stand before the first zero.
fn text_len(bytes: &[u8]) -> usize
    ensures { result ≡ prefix_len (λ b. not (b == 0)) bytes.now }
{
    bytes.iter().take_while(|b| **b != 0).count()
}

/// The bytes before the first zero.
fn unpadded(bytes: &[u8]) -> &[u8]
    ensures { result.now ≡ unpadded bytes.now }
{
    &bytes[..text_len(bytes)]
}

/// The number that the eight bytes from `at` on spell, the highest first.
fn word(bytes: &[u8; MOST_NAME_BYTES], at: usize) -> u64
    requires { at + 8 ≤ most_name_bytes }
    ensures { result ≡ word_at bytes.now at }
{
    u64::from_be_bytes([
        bytes[at],
        bytes[at + 1],
        bytes[at + 2],
        bytes[at + 3],
        bytes[at + 4],
        bytes[at + 5],
        bytes[at + 6],
        bytes[at + 7],
    ])
}

/// The order of two names' bytes: eight at a time, as numbers.
fn order(a: &[u8; MOST_NAME_BYTES], b: &[u8; MOST_NAME_BYTES]) -> Ordering
    ensures { result ≡ slice_cmp nat_cmp a.now b.now }
{
    let (first, other) = (word(a, 0), word(b, 0));
    if first != other {
        return first.cmp(&other);
    }
    let (second, other) = (word(a, 8), word(b, 8));
    if second != other {
        return second.cmp(&other);
    }
    word(a, 16).cmp(&word(b, 16))
}

impl Name {
    /// The name that is spelled `text`. None exactly where `text` is no name: where it is empty, has more than
    /// 24 bytes, begins with another byte than `a` to `z`, or has a byte that is none of `a` to `z`, `0` to `9`
    /// and `-`.
    #[tactic(auto, unfolding(crate::specs::Names::is_name_text))]
    pub fn read(text: &str) -> Option<Name>
        ensures { result ≡ (if is_name_text text.now then Some text.now else None) }
    {
        let source = text.as_bytes();
        if !is_text(source) {
            return None;
        }
        let mut bytes = [0u8; MOST_NAME_BYTES];
        bytes[..source.len()].copy_from_slice(source);
        Some(Name { bytes })
    }

    /// The text of the name, which `read` reads as this name: 1 to 24 bytes of ASCII.
    pub fn as_str(&self) -> &str
        ensures text { result.now ≡ self.now }
        ensures valid { IsTrue (is_name_text self.now) }
    {
        unsafe { std::str::from_utf8_unchecked(unpadded(&self.bytes)) }
    }
}

impl PartialEq for Name {
    ghost eq = { pointwise nat_eq };

    ghost laws = { partial_equiv_from_equiv nat_list_eq_equiv };

    #[tactic(auto, using(crate::proofs::OrderLemmas::level_names))]
    fn eq(&self, other: &Name) -> bool {
        self.cmp(other).is_eq()
    }
}

impl Eq for Name {
    ghost laws = { nat_list_eq_equiv };
}

impl PartialOrd for Name {
    ghost partial_cmp = { λ x y. Some (slice_cmp nat_cmp x y) };

    ghost laws = { texts_po };

    fn partial_cmp(&self, other: &Name) -> Option<Ordering> {
        Some(self.cmp(other))
    }
}

impl Ord for Name {
    ghost cmp = { slice_cmp nat_cmp };

    ghost total = { nat_list_cmp_total };

    ghost matches_partial_cmp = { λ x y. refl };

    ghost matches_eq = { texts_ties };

    #[tactic(auto, using(crate::proofs::OrderLemmas::names_cmp))]
    fn cmp(&self, other: &Name) -> Ordering {
        order(&self.bytes, &other.bytes)
    }
}

/// Whether two names are the same.
#[tactic(auto, using(crate::proofs::OrderLemmas::names_cmp))]
pub fn same_name(a: &Name, b: &Name) -> bool
    ensures value { result ≡ is_name a.now b.now }
    ensures first { IsTrue (is_name_text a.now) }
    ensures second { IsTrue (is_name_text b.now) }
{
    order(&a.bytes, &b.bytes).is_eq()
}
