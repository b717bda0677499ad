//! Each call of a book that changes nothing, and each report.
use super::asked::asked;
use super::is_want;
use crate::desk::{PAYMENT, SETTLEMENT, answer_in_the_end};
use crate::empty::{Trial, in_memory, in_tables};
use mx_book::{Book, StoreFault};
use mx_office::Office;
use std::process::Abort;
use std::test::Fail;

/// Calls with their values where p1, which held 100, paid 60 to q1.
const PAID: &str = "
who 00000000000000000000000000000001 -> operator
who 00000000000000000000000000000002 -> clerk of m
who 0000000000000000000000000000000a -> holder ann
who 0000000000000000000000000000000c -> none
member m -> granted 1000, float 900
member zz -> none
purses -> p1|q1|
members -> m|
holder ann -> of m, purses 1
holder zz -> none
purses_of ann -> p1|
purses_of zz -> none
purse p1 -> of ann of m, balance 40, next 1, eaFrom, log [], lines 2, messages 2, next message 2
purse q1 -> of bob of m, balance 60, next 1, eaTo, log [], lines 1, messages 1, next message 1
purse zz -> none
has_purse p1 -> yes
has_purse zz -> no
own_purse ann p1 -> balance 40, next 1, eaFrom, log [], lines 2
own_purse bob p1 -> none
is_own ann p1 -> yes
is_own bob p1 -> no
finds_place p1 -> yes
finds_place zz -> no
inbox p1 -> 0 req p1,q1,60,0,0|1 ack p1,q1,60,0,0|
inbox q1 -> 0 val p1,q1,60,0,0|
inbox zz -> none
message p1 1 -> ack p1,q1,60,0,0
message p1 2 -> none
has_message p1 0 -> yes
has_message p1 2 -> no
lines p1 0 -> number,kind,amount,balance,note|1,loaded,100,100,a1|2,sent,60,40,\"p1,q1,60,0,0\"|
lines p1 1 -> number,kind,amount,balance,note|2,sent,60,40,\"p1,q1,60,0,0\"|
load_of p1 a1 -> 100
load_of p1 a2 -> none
totals -> 1000,900,0,100,0,100,0,0
member_totals m -> 1000,900,0,100,0,100
member_totals zz -> none
members_totals -> m,1000,900,0,100,0,100|
statement p1 -> number,kind,amount,balance,note|1,loaded,100,100,a1|2,sent,60,40,\"p1,q1,60,0,0\"|
statement q1 -> number,kind,amount,balance,note|1,received,60,60,\"p1,q1,60,0,0\"|
statement zz -> none
statements -> purse,number,kind,amount,balance,note|p1,1,loaded,100,100,a1|p1,2,sent,60,40,\"p1,q1,60,0,0\"|q1,1,received,60,60,\"p1,q1,60,0,0\"|even
reconcile -> row,name,granted,float,uncollected,issued,redeemed,balances,transit,lost|member,m,1000,900,0,100,0,100,,|scheme,,1000,900,0,100,0,100,0,0|
";

/// Calls with their values where a lost payment was settled, p1 redeemed 30, and its log was read again.
const SETTLED: &str = "
purse p1 -> of ann of m, balance 70, next 2, eaFrom, log [q1,p1,5,1,1], lines 6, messages 2, next message 2
purse q1 -> of bob of m, balance 0, next 1, eaFrom, log [p1,q1,60,0,0], lines 1, messages 2, next message 2
inbox p1 -> 0 req p1,q1,60,0,0|1 clear [p1,q1,60,0,0]|
message q1 1 -> req q1,p1,5,1,1
lines p1 3 -> number,kind,amount,balance,note|4,settled,60,100,\"p1,q1,60,0,0\"|5,redeemed,30,70,r1|6,logged,5,70,\"q1,p1,5,1,1\"|
archived p1 p1,q1,60,0,0 -> yes
archived q1 p1,q1,60,0,0 -> yes
archived p1 q1,p1,5,1,1 -> no
settled p1,q1,60,0,0 -> yes
settled q1,p1,5,1,1 -> no
tray p1 -> tray [q1,p1,5,1,1]
tray q1 -> tray []
redemption_of p1 r1 -> 30
redemption_of p1 a1 -> none
uncollected m -> 30
uncollected zz -> 0
totals -> 1000,900,30,100,30,70,0,0
member_totals m -> 1000,900,30,100,30,70
reconcile -> row,name,granted,float,uncollected,issued,redeemed,balances,transit,lost|member,m,1000,900,30,100,30,70,,|scheme,,1000,900,30,100,30,70,0,0|
";

/// Asserts that a call answers its value, or a fault.
fn assert_value(
    rt: &(impl Abort + AllocGlobal),
    book: &mut impl Book,
    call: &str,
    value: &str,
) -> Result<(), StoreFault> {
    let words = asked(rt.alloc(), book, call)?;
    assert_eq!(rt; words.as_str(), value, "{call}");
    Ok(())
}

/// Asserts that the calls of a script answer their values up to the first fault.
pub(crate) fn assert_values(
    rt: &(impl Abort + AllocGlobal),
    book: &mut impl Book,
    script: &str,
) -> Result<(), StoreFault> {
    for line in script.lines() {
        match line.split_once(" -> ") {
            Some((call, value)) => assert_value(rt, book, call, value)?,
            None => assert!(rt; line.is_empty(), "{line}"),
        }
    }
    Ok(())
}

/// Asserts that each call of a script answers its value; or that after the first fault, which is a want, each does.
pub(super) fn assert_read(
    rt: &(impl Abort + AllocGlobal),
    book: &mut impl Book,
    script: &str,
    is_tables: bool,
) {
    if let Err(fault) = assert_values(rt, book, script) {
        assert!(rt; is_want(fault, is_tables), "{fault:?}");
        assert_eq!(rt; assert_values(rt, book, script), Ok(()));
    }
}

/// Scripts, and the calls of another behind them.
#[derive(Drop)]
struct ReadAfter<'a> {
    before: &'a [&'a str],
    calls: &'a str,
    is_tables: bool,
}

impl Trial for ReadAfter<'_> {
    fn try_in(
        &self,
        rt: &(impl Abort + AllocGlobal),
        office: &mut Office<impl Book>,
    ) -> Result<(), Fail> {
        answer_in_the_end(rt, office, self.before)?;
        assert_read(rt, office.book(), self.calls, self.is_tables);
        Ok(())
    }
}

/// Tries them over each kind of book.
fn read_after<'a>(
    rt: &(impl Abort + AllocGlobal),
    before: &'a [&'a str],
    calls: &'a str,
) -> Result<(), Fail> {
    in_memory(
        rt,
        &ReadAfter {
            before,
            calls,
            is_tables: false,
        },
    )?;
    in_tables(
        rt,
        &ReadAfter {
            before,
            calls,
            is_tables: true,
        },
    )
}

#[test]
fn reads_after_a_payment_with_a_growth_refused(rt: HostRuntime) -> Result<(), Fail> {
    read_after(&rt, &PAYMENT, PAID)
}

#[test]
fn reads_after_a_settlement_with_a_growth_refused(rt: HostRuntime) -> Result<(), Fail> {
    read_after(&rt, &SETTLEMENT, SETTLED)
}
