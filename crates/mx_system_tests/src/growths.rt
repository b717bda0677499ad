//! Calls made alone, over each kind of book. With every growth granted each answers its usual value, worked out by
//! hand. Run with one growth refused, as a check does for each growth in turn, a test says that a call that meets the
//! refused one answers want of memory, or over tables a fault of the store; that the books are as they were then; and
//! that the same call, made again, answers its usual value.
mod asked;
mod commands;
mod opened;
mod reads;
mod values;

pub(super) use self::asked::asked_of_rows;
pub(super) use self::reads::assert_values;
use mx_book::StoreFault;

/// Whether a refused growth may be answered by this fault: over tables it may be the store's too.
fn is_want(fault: StoreFault, is_tables: bool) -> bool {
    is_tables || fault == StoreFault::Memory
}
