//! Books of version 1 of the schema, in which p1 paid 60 to q1, are brought to version 2.
use super::scripts::Exchange;
use crate::empty::in_office;
use crate::tables::{of_version_1, opened, unopened};
use mx_tables::{Migrated, migrate};
use sqlite::{Connection, MemStore};
use std::process::Abort;
use std::test::Fail;

/// The rows that the payment leaves.
const ROWS: &str = "
INSERT INTO member (name, granted, unspent) VALUES ('m', 1000, 900)
INSERT INTO token (token, kind, name) VALUES ('00000000000000000000000000000001', 'operator', '')
INSERT INTO token (token, kind, name) VALUES ('00000000000000000000000000000002', 'clerk', 'm')
INSERT INTO token (token, kind, name) VALUES ('0000000000000000000000000000000a', 'holder', 'ann')
INSERT INTO token (token, kind, name) VALUES ('0000000000000000000000000000000b', 'holder', 'bob')
INSERT INTO holder (name, member) VALUES ('ann', 'm')
INSERT INTO holder (name, member) VALUES ('bob', 'm')
INSERT INTO purse (name, holder, balance, next_number, status, details, log, line_count, next_message) VALUES ('p1', 'ann', 40, 1, 'eaFrom', '', '', 2, 2)
INSERT INTO purse (name, holder, balance, next_number, status, details, log, line_count, next_message) VALUES ('q1', 'bob', 60, 1, 'eaTo', '', '', 1, 1)
INSERT INTO inbox (purse, number, kind, details) VALUES ('p1', 0, 'req', 'p1,q1,60,0,0')
INSERT INTO inbox (purse, number, kind, details) VALUES ('q1', 0, 'val', 'p1,q1,60,0,0')
INSERT INTO inbox (purse, number, kind, details) VALUES ('p1', 1, 'ack', 'p1,q1,60,0,0')
INSERT INTO line (purse, number, kind, amount, balance, note) VALUES ('p1', 1, 'loaded', 100, 100, 'a1')
INSERT INTO line (purse, number, kind, amount, balance, note) VALUES ('p1', 2, 'sent', 60, 40, 'p1,q1,60,0,0')
INSERT INTO line (purse, number, kind, amount, balance, note) VALUES ('q1', 1, 'received', 60, 60, 'p1,q1,60,0,0')
INSERT INTO load (purse, reference, amount) VALUES ('p1', 'a1', 100)
";

/// What the books say then.
const KEPT: &str = r#"
ann GET /purses/p1 -> 200 {"balance":40,"next":1,"purse":"p1","status":"eaFrom"}
bob GET /purses/q1 -> 200 {"balance":60,"next":1,"purse":"q1","status":"eaTo"}
operator GET /reconcile -> 200 {"balances":"100","float":"900","granted":"1000","issued":"100","lost":"0","redeemed":"0","transit":"0","uncollected":"0"}
ann GET /purses/p1/statement/0 -> 200 {"lines":[{"amount":100,"balance":100,"kind":"loaded","note":"a1","number":1},{"amount":60,"balance":40,"kind":"sent","note":"p1,q1,60,0,0","number":2}]}
bob GET /purses/q1/inbox -> 200 {"messages":[{"details":"p1,q1,60,0,0","kind":"val","number":0}]}
operator POST /settle {"details":"p1,q1,60,0,0"} -> 409 {"error":"not lost"}
"#;

/// Asserts that a store is brought to version 2, once.
fn assert_migrated(
    rt: &(impl Abort + AllocGlobal),
    store: &mut Connection<MemStore>,
) -> Result<(), Fail> {
    assert!(rt; matches!(migrate(rt.alloc(), store), Ok(Migrated::Done)));
    assert!(rt; matches!(migrate(rt.alloc(), store), Ok(Migrated::Already)));
    Ok(())
}

#[test]
fn books_of_the_version_before_are_kept(rt: HostRuntime) -> Result<(), Fail> {
    let kept = Exchange::of_one_run(rt.alloc(), &[KEPT])?;
    let mut store = unopened(rt.alloc(), of_version_1(rt.alloc(), ROWS)?)?;
    assert_migrated(&rt, &mut store)?;
    in_office(&rt, opened(rt.alloc(), store)?, &kept)
}
