//! Reports that add up, and reports of books that were damaged.
use mx_book::values::{Line, LineKind, MemberTotals, Note, Totals};
use mx_pay::{Amount, Name};
use mx_report::{Report, is_even_statement};
use std::alloc::Global;
use std::test::Fail;

/// A scheme of one member, which was granted 1000 and loaded 100, of which these are balances.
fn report_of(alloc: Global, balances: u128, float: u128) -> Result<Report, Fail> {
    let mut members = Vec::new(alloc);
    let member = MemberTotals {
        granted: 1000,
        float,
        uncollected: 0,
        issued: 100,
        redeemed: 0,
        balances,
    };
    members.push((Name::read("m").ok_or("no name")?, member))?;
    let scheme = Totals {
        granted: 1000,
        float,
        uncollected: 0,
        issued: 100,
        redeemed: 0,
        balances,
        transit: 60,
        lost: 0,
    };
    Ok(Report { members, scheme })
}

/// The balances and the float of such schemes, and whether their sums add up.
const SUMS: [(u128, u128, bool); 3] = [(40, 900, true), (56, 900, false), (40, 899, false)];

#[test]
fn sums_that_add_up_and_that_do_not(rt: HostRuntime) -> Result<(), Fail> {
    for (balances, float, is_even) in &SUMS {
        let report = report_of(rt.alloc(), *balances, *float)?;
        assert!(rt; report.is_even() == *is_even, "{balances} {float}");
    }
    Ok(())
}

/// The line of that number, with that balance after it.
fn line(number: u64, balance: u64) -> Result<Line, Fail> {
    Ok(Line {
        number,
        kind: LineKind::Loaded,
        amount: Amount::new(1).ok_or("no amount")?,
        balance,
        note: Note::Reference(Name::read("a").ok_or("no name")?),
    })
}

/// The numbers of lines with the balances after them, a balance in the end, and whether the lines lead to it.
const STATEMENTS: [(&[(u64, u64)], u64, bool); 6] = [
    (&[], 0, true),
    (&[(1, 5), (2, 7)], 7, true),
    (&[], 5, false),
    (&[(1, 5), (2, 7)], 5, false),
    (&[(1, 5), (3, 9)], 9, false),
    (&[(2, 7)], 7, false),
];

/// Whether these lines lead to the balance.
fn leads_to(alloc: Global, rows: &[(u64, u64)], balance: u64) -> Result<bool, Fail> {
    let mut lines = Vec::new(alloc);
    for (number, after) in rows {
        lines.push(line(*number, *after)?)?;
    }
    Ok(is_even_statement(lines.as_slice(), balance))
}

#[test]
fn lines_that_lead_to_the_balance_and_that_do_not(rt: HostRuntime) -> Result<(), Fail> {
    for (rows, balance, expected) in &STATEMENTS {
        assert!(rt;
            leads_to(rt.alloc(), rows, *balance)? == *expected,
            "{balance}"
        );
    }
    Ok(())
}
