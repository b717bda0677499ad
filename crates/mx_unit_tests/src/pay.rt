//! Examples of each rule, worked out by hand: what no contract says.
use mx_pay::{Amount, Name, PayDetails, Seq, Token, code_text, read_code};
use std::alloc::{AllocError, Global};
use std::test::Fail;

/// Texts, and whether each is a name.
const NAMES: [(&str, bool); 25] = [
    ("a", true),
    ("z", true),
    ("p1", true),
    ("a-b", true),
    ("a-", true),
    ("z09", true),
    ("abcdefghijklmnopqrstuvwx", true),
    ("", false),
    ("abcdefghijklmnopqrstuvwxy", false),
    ("1a", false),
    ("-a", false),
    ("A", false),
    ("aB", false),
    ("a_b", false),
    ("a b", false),
    ("é", false),
    ("aé", false),
    ("`", false),
    ("{", false),
    ("a`", false),
    ("a{", false),
    ("a/", false),
    ("a:", false),
    ("a,", false),
    ("a.", false),
];

/// Whether the name that a text is read as is spelled so. None where it is no name.
fn is_spelled(text: &str) -> Option<bool> {
    let name = Name::read(text)?;
    Some(name.as_str() == text)
}

#[test]
fn names_by_their_rule(rt: HostRuntime) {
    for (text, is_name) in &NAMES {
        assert!(rt; is_spelled(text) == is_name.then_some(true), "{text}");
    }
}

/// Numbers, with the amount and the sequence number that each is.
const NUMBERS: [(u64, Option<u64>, Option<u64>); 6] = [
    (0, Some(0), Some(0)),
    (
        1_000_000_000_000,
        Some(1_000_000_000_000),
        Some(1_000_000_000_000),
    ),
    (1_000_000_000_001, None, Some(1_000_000_000_001)),
    (1_000_000_000_000_000, None, Some(1_000_000_000_000_000)),
    (1_000_000_000_000_001, None, None),
    (u64::MAX, None, None),
];

#[test]
fn numbers_are_accepted_up_to_their_limits(rt: HostRuntime) {
    for (number, amount, seq) in &NUMBERS {
        let found = (
            Amount::new(*number).map(Amount::get),
            Seq::new(*number).map(Seq::get),
        );
        assert!(rt; found == (*amount, *seq), "{number}");
    }
}

/// Details of a payment of 60 from `a`, whose own number is 3, to a purse whose own is 4.
fn details(to: &str) -> Option<PayDetails> {
    let (from, to) = (Name::read("a")?, Name::read(to)?);
    PayDetails::new(from, to, Amount::new(60)?, Seq::new(3)?, Seq::new(4)?)
}

/// The value of a payment, and the numbers of its purses.
fn numbers(payment: &PayDetails) -> (u64, u64, u64) {
    let (from_seq, to_seq) = (payment.from_seq(), payment.to_seq());
    (payment.value().get(), from_seq.get(), to_seq.get())
}

#[test]
fn details_keep_their_fields_and_have_two_names(rt: HostRuntime) -> Result<(), Fail> {
    let payment = details("b").ok_or("no details")?;
    let (from, to) = (payment.from(), payment.to());
    let fields = (from.as_str(), to.as_str(), numbers(&payment));
    assert_eq!(rt; fields, ("a", "b", (60, 3, 4)));
    let log = read_code("a,b,60,3,4").ok_or("no code text")?;
    assert!(rt; log.at(0) == Some(payment) && details("a").is_none());
    Ok(())
}

/// Texts that are no tokens.
const NO_TOKENS: [&str; 6] = [
    "",
    "0123456789abcdef0123456789abcde",
    "0123456789abcdef0123456789abcdef0",
    "0123456789abcdef0123456789abcdeg",
    " 123456789abcdef0123456789abcdef",
    "0x23456789abcdef0123456789abcdef",
];

/// Tokens are read in either case, and written in lower case.
#[test]
fn tokens_by_their_rule(rt: HostRuntime) -> Result<(), Fail> {
    let low = Token::read("0123456789abcdef0123456789abcdef").ok_or("no token")?;
    let high = Token::read_bytes(b"0123456789ABCDEF0123456789abcdEF");
    assert!(rt; high == Some(low) && low.text() == *b"0123456789abcdef0123456789abcdef");
    let later = Token::read("0123456789abcdef0123456789abcdff");
    assert!(rt; Some(low) < later && Token::read_bytes(&[0xFF; 32]).is_none());
    for text in &NO_TOKENS {
        assert!(rt; Token::read(text).is_none(), "{text}");
    }
    Ok(())
}

/// Texts, each with how many entries its log has where it is a code text. 16 are the most.
const CODE_TEXTS: [(&str, Option<usize>); 28] = [
    ("", Some(0)),
    ("p1,q1,60,0,0", Some(1)),
    (
        "a,b,1000000000000,1000000000000000,1000000000000000",
        Some(1),
    ),
    ("a,b,2,0,0;a,b,10,0,0;a-1,b,0,0,0;a1,b,0,0,0", Some(4)),
    (
        "p1,q1,60,10,0;p1,q1,60,11,0;p1,q1,60,12,0;p1,q1,60,13,0;p1,q1,60,14,0;p1,q1,60,15,0;\
p1,q1,60,16,0;p1,q1,60,17,0;p1,q1,60,18,0;p1,q1,60,19,0;p1,q1,60,20,0;p1,q1,60,21,0;\
p1,q1,60,22,0;p1,q1,60,23,0;p1,q1,60,24,0;p1,q1,60,25,0",
        Some(16),
    ),
    ("p1,q1,060,0,0", None),
    ("p1,q1,60,00,0", None),
    ("p1,q1,+60,0,0", None),
    ("p1,q1,,0,0", None),
    ("p1,p1,1,0,0", None),
    ("p1,q1,60,0,0;", None),
    (";p1,q1,60,0,0", None),
    ("p1,q1,60,0,0;;p1,q1,61,0,0", None),
    ("p1,q1,61,0,0;p1,q1,60,0,0", None),
    ("p1,q1,10,0,0;p1,q1,9,0,0", None),
    ("p1,q1,60,0,0;p1,q1,60,0,0", None),
    ("p1,q1,1000000000001,0,0", None),
    ("p1,q1,60,1000000000000001,0", None),
    ("p1,q1,60,0,1000000000000001", None),
    ("p1,q1,18446744073709551616,0,0", None),
    ("p1,q1,60,0", None),
    ("p1,q1,60,0,0,0", None),
    ("P1,q1,60,0,0", None),
    (" p1,q1,60,0,0", None),
    ("p1,q1,60,0,0\n", None),
    (";", None),
    (",,,,", None),
    (
        "p1,q1,60,10,0;p1,q1,60,11,0;p1,q1,60,12,0;p1,q1,60,13,0;p1,q1,60,14,0;p1,q1,60,15,0;\
p1,q1,60,16,0;p1,q1,60,17,0;p1,q1,60,18,0;p1,q1,60,19,0;p1,q1,60,20,0;p1,q1,60,21,0;\
p1,q1,60,22,0;p1,q1,60,23,0;p1,q1,60,24,0;p1,q1,60,25,0;p1,q1,60,26,0",
        None,
    ),
];

/// How many entries the log has that a text is read as, and whether its code text is that text.
fn entries_in(alloc: Global, text: &str) -> Result<(Option<usize>, bool), AllocError> {
    match read_code(text) {
        None => Ok((None, true)),
        Some(log) => {
            let again = code_text(alloc, &log)?;
            Ok((Some(log.len()), again.as_str() == text))
        }
    }
}

#[test]
fn code_texts_by_their_rule(rt: HostRuntime) -> Result<(), Fail> {
    for (text, entries) in &CODE_TEXTS {
        assert_eq!(rt; entries_in(rt.alloc(), text)?, (*entries, true), "{text}");
    }
    Ok(())
}
