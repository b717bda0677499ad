//! What a terminal is told of a roll that isn't imported, over rolls and a terminal in memory.
use crate::offices::operator;
use mx_memory::new_book;
use mx_office::Office;
use mx_tasks::import::import_file;
use mx_tasks::in_memory::{RollsInMemory, TerminalInMemory};
use std::collections::BTreeMap;
use std::test::Fail;

#[test]
fn odd_roll_is_told_to_a_terminal_alone(rt: HostRuntime) -> Result<(), Fail> {
    let mut rolls: BTreeMap<String, &[u8]> = BTreeMap::new(rt.alloc());
    rolls.insert(String::from_str(rt.alloc(), "a.csv")?, b"kind,name\n")?;
    let rolls = RollsInMemory { rolls };
    let Some(token) = operator() else {
        return Err(Fail::new("no token"));
    };
    for is_terminal in [false, true] {
        let mut office = Office::new(new_book(rt.alloc(), token));
        let mut terminal = TerminalInMemory::new(rt.alloc(), is_terminal);
        let answer = import_file(&rt, &rolls, &mut terminal, "a.csv", &mut office);
        assert!(&rt; answer.is_err());
        let Some(texts) = terminal.texts else {
            return Err(Fail::new("no memory"));
        };
        let told = texts.first().map(|text| text.as_str()).unwrap_or("nothing");
        let wanted = if is_terminal {
            "a.csv: its header isn't kind,name,of,token, or row 1 hasn't four fields; 0 rows are done\n"
        } else {
            "nothing"
        };
        assert_eq!(&rt; told, wanted);
    }
    Ok(())
}
