//! The reports of a scheme, as texts, over a book in memory and over tables.
use crate::desk::{FUNDED, PAYMENT, SETTLEMENT_BETWEEN, STANDING, tell_runs, written};
use crate::empty::{FaultyTrial, Trial, in_both, in_faulty};
use crate::faulty::Faulty;
use crate::growths::assert_values;
use mx_book::Book;
use mx_office::Office;
use std::process::Abort;
use std::test::Fail;

/// Scripts and one more, and behind them calls of the reports with their values, a line each, `CALL ARGUMENT -> VALUE`.
#[derive(Drop)]
struct Reported<'a> {
    before: &'a [&'a str],
    last: &'a str,
    calls: &'a str,
}

impl Trial for Reported<'_> {
    fn try_in(
        &self,
        rt: &(impl Abort + AllocGlobal),
        office: &mut Office<impl Book>,
    ) -> Result<(), Fail> {
        tell_runs(rt, office, self.before)?;
        tell_runs(rt, office, &[self.last])?;
        assert_values(rt, office.book(), self.calls)?;
        Ok(())
    }
}

/// The statements after a payment, and the reconciliation. `|` stands for the end of a line.
const PAID: &str = "
statement p1 -> number,kind,amount,balance,note|1,loaded,100,100,a1|2,sent,60,40,\"p1,q1,60,0,0\"|
statement q1 -> number,kind,amount,balance,note|1,received,60,60,\"p1,q1,60,0,0\"|
statement zz -> none
statements -> purse,number,kind,amount,balance,note|p1,1,loaded,100,100,a1|p1,2,sent,60,40,\"p1,q1,60,0,0\"|q1,1,received,60,60,\"p1,q1,60,0,0\"|even
is_even -> yes
reconcile -> row,name,granted,float,uncollected,issued,redeemed,balances,transit,lost|member,m,1000,900,0,100,0,100,,|scheme,,1000,900,0,100,0,100,0,0|
";

#[test]
fn reports_after_a_payment(rt: HostRuntime) -> Result<(), Fail> {
    in_both(
        &rt,
        &Reported {
            before: &PAYMENT,
            last: "",
            calls: PAID,
        },
    )
}

/// The statement of a purse to which lost value came back.
const SETTLED: &str = "
statement p1 -> number,kind,amount,balance,note|1,loaded,100,100,a1|2,sent,60,40,\"p1,q1,60,0,0\"|3,logged,60,40,\"p1,q1,60,0,0\"|4,settled,60,100,\"p1,q1,60,0,0\"|
";

#[test]
fn statement_after_a_settlement(rt: HostRuntime) -> Result<(), Fail> {
    in_both(
        &rt,
        &Reported {
            before: &SETTLEMENT_BETWEEN,
            last: "",
            calls: SETTLED,
        },
    )
}

/// A load of 1 to p1.
const LOAD: &str =
    "clerk POST /purses/p1/load {\"amount\":1,\"ref\":\"b#n#\"} -> 200 {\"done\":\"loaded\"}\n";

/// After so many loads of 1 to a purse of 100, its statement has all lines, and the last has the balance.
fn assert_loaded(rt: &(impl Abort + AllocGlobal), count: u64, calls: &str) -> Result<(), Fail> {
    let loads = written(rt.alloc(), &[(0, count, LOAD)])?;
    in_both(
        rt,
        &Reported {
            before: &[STANDING, FUNDED],
            last: loads.as_str(),
            calls,
        },
    )
}

/// All lines come, also where these are two pages, one fewer or one more.
#[test]
fn statements_of_many_lines(rt: HostRuntime) -> Result<(), Fail> {
    for (loads, end) in [
        (60, "end_of p1 -> 61 lines to 61, balance 160"),
        (98, "end_of p1 -> 99 lines to 99, balance 198"),
        (99, "end_of p1 -> 100 lines to 100, balance 199"),
        (100, "end_of p1 -> 101 lines to 101, balance 200"),
    ] {
        assert_loaded(&rt, loads, end)?;
    }
    Ok(())
}

/// A statement of 101 lines is read by a look for the purse and three pages, each asked for as 50 lines: two are full, and one
/// line is left.
#[derive(Drop)]
struct ThreePages<'a> {
    loads: &'a str,
}

impl FaultyTrial for ThreePages<'_> {
    fn try_in(
        &self,
        rt: &(impl Abort + AllocGlobal),
        office: &mut Office<Faulty<impl Book>>,
    ) -> Result<(), Fail> {
        tell_runs(rt, office, &[STANDING, FUNDED, self.loads])?;
        office.book.left = Some(9);
        assert_values(
            rt,
            office.book(),
            "end_of p1 -> 101 lines to 101, balance 200",
        )?;
        assert_eq!(rt; office.book.left, Some(5));
        assert_eq!(rt; office.book.lines_asked, (50, 50));
        Ok(())
    }
}

#[test]
fn pages_of_a_long_statement(rt: HostRuntime) -> Result<(), Fail> {
    let loads = written(rt.alloc(), &[(0, 100, LOAD)])?;
    in_faulty(
        &rt,
        &ThreePages {
            loads: loads.as_str(),
        },
    )
}
