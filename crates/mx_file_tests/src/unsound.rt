//! Rows that spell no World, each made by one statement, and what a check finds first.
use crate::scratch::expect;
use mx_audit::Ordered;
use mx_audit::tables::check;
use mx_pay::Token;
use mx_tables::Tables;
use sqlite::Connection;
use sqlite_trees::memory::MemStore;
use std::alloc::Global;
use std::test::Fail;

/// Rows that spell a World, beside the operator's token, which ends in 1: ann's p1 paid 60 to bob's q1, which redeemed 5 of
/// them, and lost 20, which q1 has read, and which is archived and to be cleared for p1.
const ROWS: [&str; 23] = [
    "INSERT INTO member (name, granted, unspent) VALUES ('m', 1000, 900)",
    "INSERT INTO member (name, granted, unspent) VALUES ('n', 500, 505)",
    "INSERT INTO token (token, kind, name) VALUES ('00000000000000000000000000000002', 'clerk', 'm')",
    "INSERT INTO token (token, kind, name) VALUES ('00000000000000000000000000000003', 'clerk', 'n')",
    "INSERT INTO token (token, kind, name) VALUES ('0000000000000000000000000000000a', 'holder', 'ann')",
    "INSERT INTO token (token, kind, name) VALUES ('0000000000000000000000000000000b', 'holder', 'bob')",
    "INSERT INTO holder (name, member) VALUES ('ann', 'm')",
    "INSERT INTO holder (name, member) VALUES ('bob', 'n')",
    "INSERT INTO purse (name, holder, balance, next_number, status, details, log, line_count, next_message) VALUES ('p1', 'ann', 20, 2, 'eaFrom', '', 'p1,q1,20,1,1', 3, 1000)",
    "INSERT INTO purse (name, holder, balance, next_number, status, details, log, line_count, next_message) VALUES ('q1', 'bob', 55, 2, 'eaTo', '', 'p1,q1,20,1,1', 2, 1)",
    "INSERT INTO inbox (purse, number, kind, details) VALUES ('p1', 0, 'req', 'p1,q1,60,0,0')",
    "INSERT INTO inbox (purse, number, kind, details) VALUES ('q1', 0, 'val', 'p1,q1,60,0,0')",
    "INSERT INTO inbox (purse, number, kind, details) VALUES ('p1', 2, 'clear', 'p1,q1,20,1,1')",
    "INSERT INTO line (purse, number, kind, amount, balance, note) VALUES ('p1', 1, 'loaded', 100, 100, 'a1')",
    "INSERT INTO line (purse, number, kind, amount, balance, note) VALUES ('p1', 2, 'sent', 60, 40, 'p1,q1,60,0,0')",
    "INSERT INTO line (purse, number, kind, amount, balance, note) VALUES ('q1', 1, 'received', 60, 60, 'p1,q1,60,0,0')",
    "INSERT INTO line (purse, number, kind, amount, balance, note) VALUES ('p1', 3, 'sent', 20, 20, 'p1,q1,20,1,1')",
    "INSERT INTO line (purse, number, kind, amount, balance, note) VALUES ('q1', 2, 'redeemed', 5, 55, 'r1')",
    "INSERT INTO tray (purse, details) VALUES ('q1', 'p1,q1,20,1,1')",
    "INSERT INTO archive (purse, details) VALUES ('p1', 'p1,q1,20,1,1')",
    "INSERT INTO load (purse, reference, amount) VALUES ('p1', 'a1', 100)",
    "INSERT INTO redemption (purse, reference, amount, collected) VALUES ('q1', 'r1', 5, 1)",
    "INSERT INTO settled (details) VALUES ('p1,q1,30,2,2')",
];

/// Statements that break one condition each, and what is found first then: `SQL -> FINDING`.
const BROKEN: &str = "
UPDATE meta SET version = 3 -> meta 1: version isn't 2
INSERT INTO meta (id, version) VALUES (2, 2) -> meta 2: id isn't 1
UPDATE member SET granted = -1 WHERE name = 'm' -> member m: granted isn't a number from 0 to 10^15
UPDATE member SET granted = 1000000000000001 WHERE name = 'm' -> member m: granted above 10^15
UPDATE member SET unspent = 1000000000000001 WHERE name = 'm' -> member m: unspent above 10^15
UPDATE member SET granted = 600000000000000 -> member n: with it more than 10^15 is granted
INSERT INTO member (name, granted, unspent) VALUES ('M', 0, 0) -> member M: name isn't a name
DELETE FROM token WHERE name = 'n' -> member n: no clerk's token
INSERT INTO holder (name, member) VALUES ('Ann', 'm') -> holder Ann: name isn't a name
DELETE FROM token WHERE name = 'ann' -> holder ann: no token
DELETE FROM token -> meta: the operator has no token
UPDATE token SET kind = 'holder', name = 'cat' WHERE kind = 'operator' -> token 00..01: the first token isn't the operator's
UPDATE token SET name = 'x' WHERE kind = 'operator' -> token 00..01: name isn't empty, as the operator's is
UPDATE token SET token = '0000000000000000000000000000000A' WHERE name = 'ann' -> token 00..0A: token isn't 32 lower-case hexadecimal digits
UPDATE token SET token = 'x' WHERE name = 'ann' -> token of holder ann: token isn't 32 lower-case hexadecimal digits
UPDATE token SET kind = 'guest' WHERE name = 'ann' -> token 00..0a: kind isn't operator, clerk or holder
INSERT INTO token (token, kind, name) VALUES ('0000000000000000000000000000000c', 'holder', 'cat') -> token 00..0c: its holder isn't there
INSERT INTO token (token, kind, name) VALUES ('0000000000000000000000000000000c', 'clerk', 'o') -> token 00..0c: its member isn't there
INSERT INTO purse (name, holder, balance, next_number, status, details, log, line_count, next_message) VALUES ('P', 'ann', 0, 0, 'eaFrom', '', '', 0, 0) -> purse P: name isn't a name
INSERT INTO purse (name, holder, balance, next_number, status, details, log, line_count, next_message) SELECT 'r' || (100 + a.rowid * 25 + b.rowid * 5 + c.rowid), 'ann', 0, 0, 'eaFrom', '', '', 0, 0 FROM token a, token b, token c -> holder ann: more than 64 purses
UPDATE purse SET balance = 1000000000000001 WHERE name = 'p1' -> purse p1: balance above 10^15
UPDATE purse SET balance = -1 WHERE name = 'p1' -> purse p1: balance isn't a number from 0 to 10^15
UPDATE purse SET next_number = 1000000000000001 WHERE name = 'p1' -> purse p1: next_number above 10^15
UPDATE purse SET next_number = 1 WHERE name = 'p1' -> purse p1: its values don't go together: an entry of log is another purse's, or not below next_number
UPDATE purse SET status = 'busy' WHERE name = 'p1' -> purse p1: status isn't a word of a status with its details
UPDATE purse SET status = 'epr' WHERE name = 'p1' -> purse p1: status isn't a word of a status with its details
UPDATE purse SET status = 'epr', details = 'q1,p1,5,0,0' WHERE name = 'p1' -> purse p1: its values don't go together: the details of status are another purse's
UPDATE purse SET log = 'x' WHERE name = 'p1' -> purse p1: log isn't the text of a log
UPDATE purse SET log = 'a,b,1,0,0' WHERE name = 'p1' -> purse p1: its values don't go together: an entry of log is another purse's, or not below next_number
UPDATE purse SET line_count = -1 WHERE name = 'p1' -> purse p1: line_count isn't a number from 0 to 10^15 + 2
UPDATE purse SET line_count = 4 WHERE name = 'p1' -> purse p1: line 4 is missing
UPDATE purse SET line_count = 2 WHERE name = 'p1' -> line p1 3: the purse has 2 lines
UPDATE purse SET next_message = 1000000000000001 WHERE name = 'p1' -> purse p1: next_message above 10^15
UPDATE purse SET next_message = 2 WHERE name = 'p1' -> message p1 2: its number isn't below that of the purse's next message
UPDATE inbox SET number = -1 WHERE kind = 'val' -> message q1 -1: number isn't a number from 0 on
UPDATE inbox SET kind = 'gift' WHERE kind = 'val' -> message q1 0: kind isn't a word of a message with its details
UPDATE inbox SET details = 'x' WHERE kind = 'val' -> message q1 0: kind isn't a word of a message with its details
UPDATE inbox SET details = '' WHERE kind = 'clear' -> message p1 2: it clears nothing
UPDATE inbox SET details = 'p1,q1,30,2,2' WHERE kind = 'clear' -> purse p1: a message would clear p1,q1,30,2,2, which isn't archived
UPDATE inbox SET purse = 'x' WHERE kind = 'val' -> message x 0: its purse isn't there
INSERT INTO inbox (purse, number, kind, details) SELECT 'p1', 100 + a.rowid * 25 + b.rowid * 5 + c.rowid, 'req', 'p1,q1,60,0,0' FROM token a, token b, token c -> purse p1: more than 32 messages
DELETE FROM line WHERE number = 2 -> line p1 3: no line 2 before it
DELETE FROM line WHERE purse = 'q1' -> purse q1: line 1 is missing
UPDATE line SET number = 0 WHERE purse = 'q1' AND number = 1 -> line q1 0: its number is 0
UPDATE line SET kind = 'gift' WHERE purse = 'q1' -> line q1 1: kind isn't a kind of line
UPDATE line SET amount = 1000000000001 WHERE purse = 'q1' -> line q1 1: amount above 10^12
UPDATE line SET balance = 1000000000000001 WHERE purse = 'q1' -> line q1 1: balance above 10^15
UPDATE line SET note = 'X' WHERE purse = 'q1' -> line q1 1: note is neither a reference nor details
UPDATE line SET purse = 'x' WHERE purse = 'q1' -> line x 1: its purse isn't there
UPDATE tray SET details = 'x' -> tray q1 x: details aren't those of a payment
UPDATE tray SET details = 'p1,q1,30,2,2' -> tray q1 p1,q1,30,2,2: not in the purse's log
UPDATE tray SET purse = 'p1' -> tray p1 p1,q1,20,1,1: it is archived
UPDATE tray SET purse = 'x' -> tray x p1,q1,20,1,1: its purse isn't there
UPDATE archive SET details = 'x' -> archive p1 x: details aren't those of a payment
UPDATE archive SET purse = 'x' -> archive x p1,q1,20,1,1: its purse isn't there
UPDATE load SET amount = 1000000000001 -> load p1 a1: amount above 10^12
UPDATE load SET reference = 'A' -> load p1 A: reference isn't a name
UPDATE load SET purse = 'x' -> load x a1: its purse isn't there
UPDATE redemption SET amount = -1 -> redemption q1 r1: amount isn't a number from 0 to 10^12
UPDATE redemption SET collected = 2 -> redemption q1 r1: collected isn't 0 or 1
UPDATE redemption SET purse = 'x' -> redemption x r1: its purse isn't there
UPDATE settled SET details = 'x' -> settled x: details aren't those of a payment
";

/// Books of those rows in memory.
fn sound_books(alloc: Global) -> Result<Connection<MemStore>, Fail> {
    let operator = Token::read("00000000000000000000000000000001").ok_or("no token")?;
    let Ok(book) = Tables::create(alloc, Connection::open_in_memory(alloc)?, operator) else {
        return Err("not made")?;
    };
    let mut conn = book.into_store();
    for row in &ROWS {
        conn.execute(row, &[])?;
    }
    Ok(conn)
}

/// What a check finds first in tables, and `sound` where it finds nothing.
fn found(alloc: Global, conn: &mut Connection<impl Ordered>) -> Result<String, Fail> {
    let Ok(checked) = check(alloc, conn, 1) else {
        return Err("not checked")?;
    };
    match checked.findings.first() {
        Some(finding) => Ok(format!(in alloc; "{}", finding.as_str())?),
        None if checked.found == 0 => Ok(format!(in alloc; "sound")?),
        None => Err("not told")?,
    }
}

/// What a check finds first once a statement was run. The rows are as they were then.
fn found_after(
    alloc: Global,
    conn: &mut Connection<impl Ordered>,
    sql: &str,
) -> Result<String, Fail> {
    conn.execute("BEGIN", &[])?;
    conn.execute(sql, &[])?;
    let finding = found(alloc, conn)?;
    conn.execute("ROLLBACK", &[])?;
    Ok(finding)
}

#[test]
fn each_condition_is_found(rt: HostRuntime) -> Result<(), Fail> {
    let alloc = rt.alloc();
    let mut conn = sound_books(alloc)?;
    for line in BROKEN.lines() {
        let Some((sql, wanted)) = line.split_once(" -> ") else {
            continue;
        };
        let told = found_after(alloc, &mut conn, sql)?;
        expect(alloc, sql, told.as_str(), wanted)?;
    }
    let told = found(alloc, &mut conn)?;
    expect(alloc, "all rows", told.as_str(), "sound")
}
