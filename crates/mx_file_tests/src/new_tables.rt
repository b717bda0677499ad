//! A run over new tables in memory: each request of a set-up gets its response.
use crate::closed::assert_answered;
use crate::offices::operator;
use crate::requests::FUNDED;
use crate::scripts::input_of;
use mx_desk::Counted;
use mx_lives::{Life, run_memory_tables};
use std::test::Fail;

#[test]
fn run_over_new_tables(rt: HostRuntime) -> Result<(), Fail> {
    let operator = operator().ok_or("no token")?;
    let input = input_of(rt.alloc(), FUNDED).ok_or("no memory")?;
    let mut reader = Counted::new(input.as_bytes());
    let mut writer = Counted::new(Vec::new(rt.alloc()));
    let ended = run_memory_tables(rt.alloc(), operator, &mut reader, &mut writer);
    let written = writer.into_inner();
    assert_answered(&rt, Some(&Life { ended, written }), FUNDED);
    Ok(())
}
