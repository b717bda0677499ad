//! Rows in the order of their keys, in blocks.

ghost use Rattle.std.specs.Prelude.{◌≡◌, ◌+◌, ◌-◌, ◌<◌, ◌≤◌, ◌^◌, ◌++◌, ◌∷◌, [], OnOk, is_some, true, length, take, drop, option_map};
ghost use Rattle.std.specs.Prelude.{T as Holds};
ghost use Rattle.std.specs.FinMap.{find, is_sorted};
ghost use Rattle.std.specs.FinMap.Entries.{put};
ghost use Rattle.std.specs.Vec.{vec_len, vec_capacity};
ghost use Rattle.mx_sorted.specs.Place.{IsBlockFor, MatchPlace, without};
ghost use Rattle.mx_sorted.specs.Blocks.{rows_in, rows_from, AreUsed, AreSpare, AreSound, IsFullAt};
ghost use Rattle.mx_sorted.specs.Left.{rows_left};

use crate::rows::Rows;
use std::alloc::AllocError;
use std::cmp::Ordering;

/// How many rows a block has room for. A block in use has fewer.
pub const BLOCK: usize = 32;

/// A block that a removal leaves with fewer rows than this is joined with its neighbours, where they have room in one.
const FEW: usize = 8;

/// More blocks than this are never made.
const MOST_BLOCKS: usize = 1 << 58;

#[derive(Clone, Copy)]
pub(crate) enum Found {
    At(usize),
    Before(usize),
}

/// Where a key is among rows in order, or where it would stand.
fn find_place<K: Ord + Copy, V: Copy>(rows: &[(K, V)], key: K) -> Found
    requires { Holds (is_sorted K.cmp rows.now) }
    ensures { MatchPlace K.cmp key rows.now result }
{
    let mut low = 0;
    let mut high = rows.len();
    while low < high {
        let middle = low + (high - low) / 2;
        match key.cmp(&rows[middle].0) {
            Ordering::Less => high = middle,
            Ordering::Equal => return Found::At(middle),
            Ordering::Greater => low = middle + 1,
        }
    }
    Found::Before(low)
}

/// The value of the row with this key.
fn value_of<K: Ord + Copy, V: Copy>(rows: &[(K, V)], key: K) -> Option<&V>
    requires { Holds (is_sorted K.cmp rows.now) }
    ensures { option_map (λ v. v.now) result ≡ find K.cmp key rows.now }
{
    match find_place(rows, key) {
        Found::At(i) => Some(&rows[i].1),
        Found::Before(_) => None,
    }
}

/// Removes the row of this key.
fn remove_row<K: Ord + Copy, V: Copy>(rows: &mut Vec<(K, V)>, key: K)
    requires { Holds (is_sorted K.cmp rows.old.items) }
    ensures items { rows.new.items ≡ without K.cmp key rows.old.items }
    ensures fewer { vec_len rows.new ≤ vec_len rows.old }
    ensures capacity { vec_capacity rows.new ≡ vec_capacity rows.old }
{
    if let Found::At(i) = find_place(rows, key) {
        let _row = rows.remove(i);
    }
}

/// Puts a row in its place.
fn put_row<K: Ord + Copy, V: Copy>(rows: &mut Vec<(K, V)>, key: K, value: V)
    requires sorted { Holds (is_sorted K.cmp rows.old.items) }
    requires room { vec_len rows.old < vec_capacity rows.old }
    ensures items { rows.new.items ≡ put K.cmp key value rows.old.items }
    ensures more { vec_len rows.old ≤ vec_len rows.new }
    ensures one { vec_len rows.new ≤ vec_len rows.old + 1 }
    ensures capacity { vec_capacity rows.old ≤ vec_capacity rows.new }
{
    match find_place(rows, key) {
        Found::At(i) => rows[i].1 = value,
        Found::Before(i) => {
            if rows.insert(i, (key, value)).is_err() {
                unreachable!()
            }
        }
    }
}

/// The block where the row of a key is, or would stand.
fn find_block<K: Ord + Copy, V: Copy>(blocks: &[Vec<(K, V)>], key: K) -> usize
    requires some { 0 < length blocks.now }
    requires sorted { Holds (is_sorted K.cmp (rows_in blocks.now)) }
    requires used { AreUsed blocks.now }
    ensures { IsBlockFor K.cmp key blocks.now result }
{
    let mut at = 0;
    let mut end = blocks.len();
    while 1 < end - at {
        let middle = at + (end - at) / 2;
        if key.cmp(&blocks[middle][0].0).is_lt() {
            end = middle;
        } else {
            at = middle;
        }
    }
    at
}

/// The value of the row with this key.
pub(crate) fn get<K: Ord + Copy, V: Copy>(blocks: &[Vec<(K, V)>], key: K) -> Option<&V>
    requires sorted { Holds (is_sorted K.cmp (rows_in blocks.now)) }
    requires used { AreUsed blocks.now }
    ensures { option_map (λ v. v.now) result ≡ find K.cmp key (rows_in blocks.now) }
{
    if blocks.is_empty() {
        return None;
    }
    value_of(&blocks[find_block(blocks, key)], key)
}

/// Puts an element at the end, where there is room for it.
fn push_within<X: Drop>(xs: &mut Vec<X>, x: X)
    requires { vec_len xs.old < vec_capacity xs.old }
    ensures items { xs.new.items ≡ xs.old.items ++ x ∷ [] }
    ensures len { vec_len xs.new ≡ vec_len xs.old + 1 }
    ensures capacity { vec_capacity xs.old ≤ vec_capacity xs.new }
{
    if xs.push(x).is_err() {
        unreachable!()
    }
}

/// Puts an element in the place of another, which moves up with those after it, where there is room for it.
fn insert_within<X: Drop>(xs: &mut Vec<X>, at: usize, x: X)
    requires within { at ≤ vec_len xs.old }
    requires room { vec_len xs.old < vec_capacity xs.old }
    ensures items { xs.new.items ≡ take at xs.old.items ++ x ∷ drop at xs.old.items }
    ensures len { vec_len xs.new ≡ vec_len xs.old + 1 }
    ensures capacity { vec_capacity xs.old ≤ vec_capacity xs.new }
{
    if xs.insert(at, x).is_err() {
        unreachable!()
    }
}

/// Takes a spare block.
fn take_spare<X: Copy>(spare: &mut Vec<Vec<X>>) -> Vec<X>
    requires spare { AreSpare spare.old.items }
    requires some { 0 < vec_len spare.old }
    ensures none { result.items ≡ [] }
    ensures empty { vec_len result ≡ 0 }
    ensures room { 32 ≤ vec_capacity result }
    ensures spare { AreSpare spare.new.items }
    ensures len { vec_len spare.new + 1 ≡ vec_len spare.old }
{
    match spare.pop() {
        None => unreachable!(),
        Some(block) => block,
    }
}

/// Gives an empty block back. Where there is no memory for it, it's freed.
fn give_back<X: Copy>(spare: &mut Vec<Vec<X>>, block: Vec<X>)
    requires spare { AreSpare spare.old.items }
    requires none { block.items ≡ [] }
    requires room { 32 ≤ vec_capacity block }
    ensures spare { AreSpare spare.new.items }
    ensures kept { vec_len spare.old ≤ vec_len spare.new }
    ensures one { vec_len spare.new ≤ vec_len spare.old + 1 }
{
    let _ = spare.push(block);
}

/// Makes the first block, of one row.
fn put_first<K: Copy, V: Copy>(
    blocks: &mut Vec<Vec<(K, V)>>,
    spare: &mut Vec<Vec<(K, V)>>,
    key: K,
    value: V,
)
    requires sound { AreSound blocks.old spare.old }
    requires room { 0 < vec_len spare.old }
    requires none { blocks.old.items ≡ [] }
    ensures rows { rows_in blocks.new.items ≡ (key, value) ∷ [] }
    ensures sound { AreSound blocks.new spare.new }
    ensures spent { vec_len spare.old ≤ vec_len spare.new + 1 }
{
    let mut block = take_spare(spare);
    push_within(&mut block, (key, value));
    push_within(blocks, block);
}

/// Moves the upper half of a full block to a spare one.
fn move_half<X: Copy>(lower: &mut Vec<X>, upper: &mut Vec<X>)
    requires full { vec_len lower.old ≡ 32 }
    requires none { upper.old.items ≡ [] }
    requires room { 32 ≤ vec_capacity upper.old }
    ensures items { lower.new.items ++ upper.new.items ≡ lower.old.items }
    ensures lower_len { vec_len lower.new ≡ 16 }
    ensures upper_len { vec_len upper.new ≡ 16 }
    ensures lower_capacity { vec_capacity lower.new ≡ vec_capacity lower.old }
    ensures upper_capacity { vec_capacity upper.old ≤ vec_capacity upper.new }
{
    if upper.extend_from_slice(&lower[BLOCK / 2..]).is_err() {
        unreachable!()
    }
    lower.truncate(BLOCK / 2);
}

/// Splits a full block in two halves.
fn split<X: Copy>(blocks: &mut Vec<Vec<X>>, spare: &mut Vec<Vec<X>>, at: usize)
    requires within { at < vec_len blocks.old }
    requires full { IsFullAt at blocks.old spare.old }
    requires room { 0 < vec_len spare.old }
    ensures rows { rows_in blocks.new.items ≡ rows_in blocks.old.items }
    ensures sound { AreSound blocks.new spare.new }
    ensures spent { vec_len spare.old ≤ vec_len spare.new + 1 }
{
    let mut upper = take_spare(spare);
    move_half(&mut blocks[at], &mut upper);
    insert_within(blocks, at + 1, upper);
}

/// Puts a row in its place.
pub(crate) fn put<K: Ord + Copy, V: Copy>(
    blocks: &mut Vec<Vec<(K, V)>>,
    spare: &mut Vec<Vec<(K, V)>>,
    key: K,
    value: V,
)
    requires sorted { Holds (is_sorted K.cmp (rows_in blocks.old.items)) }
    requires sound { AreSound blocks.old spare.old }
    requires room { 0 < vec_len spare.old }
    ensures rows { rows_in blocks.new.items ≡ put K.cmp key value (rows_in blocks.old.items) }
    ensures sound { AreSound blocks.new spare.new }
    ensures spent { vec_len spare.old ≤ vec_len spare.new + 1 }
    ensures kept { is_some (find K.cmp key (rows_in blocks.old.items)) ≡ true
        → vec_len spare.old ≤ vec_len spare.new }
{
    if blocks.is_empty() {
        put_first(blocks, spare, key, value);
        return;
    }
    let at = find_block(blocks, key);
    put_row(&mut blocks[at], key, value);
    if blocks[at].len() == BLOCK {
        split(blocks, spare, at);
    }
}

/// Moves the rows of a block to the end of another, which has room for them.
fn move_all<X: Copy>(lower: &mut Vec<X>, upper: &mut Vec<X>)
    requires { vec_len lower.old + vec_len upper.old ≤ vec_capacity lower.old }
    ensures items { lower.new.items ≡ lower.old.items ++ upper.old.items }
    ensures none { upper.new.items ≡ [] }
    ensures len { vec_len lower.new ≡ vec_len lower.old + vec_len upper.old }
    ensures lower_capacity { vec_capacity lower.old ≤ vec_capacity lower.new }
    ensures upper_capacity { vec_capacity upper.new ≡ vec_capacity upper.old }
{
    if lower.extend_from_slice(upper).is_err() {
        unreachable!()
    }
    upper.clear();
}

/// Joins a block with the one after it, where there is one and the two have room in one.
fn join_next<X: Copy>(blocks: &mut Vec<Vec<X>>, spare: &mut Vec<Vec<X>>, at: usize)
    requires within { at < vec_len blocks.old }
    requires sound { AreSound blocks.old spare.old }
    ensures rows { rows_in blocks.new.items ≡ rows_in blocks.old.items }
    ensures sound { AreSound blocks.new spare.new }
    ensures one { vec_len blocks.old ≤ vec_len blocks.new + 1 }
    ensures spent { vec_len spare.old ≤ vec_len spare.new }
{
    let next = at + 1;
    if next == blocks.len() {
        return;
    }
    let rows = blocks[at].len() + blocks[next].len();
    if BLOCK <= rows {
        return;
    }
    let mut upper = blocks.remove(next);
    move_all(&mut blocks[at], &mut upper);
    give_back(spare, upper);
}

/// Joins a block that has few rows with its neighbours, where they have room in one.
fn join_few<X: Copy>(blocks: &mut Vec<Vec<X>>, spare: &mut Vec<Vec<X>>, at: usize)
    requires within { at < vec_len blocks.old }
    requires sound { AreSound blocks.old spare.old }
    ensures rows { rows_in blocks.new.items ≡ rows_in blocks.old.items }
    ensures sound { AreSound blocks.new spare.new }
    ensures spent { vec_len spare.old ≤ vec_len spare.new }
{
    if FEW <= blocks[at].len() {
        return;
    }
    join_next(blocks, spare, at);
    if 0 < at {
        join_next(blocks, spare, at - 1);
    }
}

/// Removes the row of this key.
pub(crate) fn remove<K: Ord + Copy, V: Copy>(
    blocks: &mut Vec<Vec<(K, V)>>,
    spare: &mut Vec<Vec<(K, V)>>,
    key: K,
)
    requires sorted { Holds (is_sorted K.cmp (rows_in blocks.old.items)) }
    requires sound { AreSound blocks.old spare.old }
    ensures rows { rows_in blocks.new.items ≡ without K.cmp key (rows_in blocks.old.items) }
    ensures sound { AreSound blocks.new spare.new }
    ensures spent { vec_len spare.old ≤ vec_len spare.new }
{
    if blocks.is_empty() {
        return;
    }
    let at = find_block(blocks, key);
    remove_row(&mut blocks[at], key);
    if blocks[at].is_empty() {
        let block = blocks.remove(at);
        give_back(spare, block);
    } else {
        join_few(blocks, spare, at);
    }
}

/// Makes this many spare blocks, so that as many puts take no memory.
pub(crate) fn reserve<X: Copy>(
    blocks: &mut Vec<Vec<X>>,
    spare: &mut Vec<Vec<X>>,
    more: usize,
) -> Result<(), AllocError>
    requires { AreSound blocks.old spare.old }
    ensures rows { blocks.new.items ≡ blocks.old.items }
    ensures sound { AreSound blocks.new spare.new }
    ensures ok { OnOk result (more ≤ vec_len spare.new) }
{
    if more <= spare.len() {
        return Ok(());
    }
    if MOST_BLOCKS - blocks.len() < more {
        return Err(AllocError);
    }
    blocks.reserve(more)?;
    let alloc = *blocks.allocator();
    for _ in spare.len()..more {
        spare.push(Vec::with_capacity(alloc, BLOCK)?)?;
    }
    Ok(())
}

/// All rows.
pub(crate) fn all<K, V>(blocks: &[Vec<(K, V)>]) -> Rows<'_, K, V>
    requires few { length (rows_in blocks.now) < 2 ^ 64 }
    ensures { rows_left result ≡ rows_in blocks.now }
{
    Rows {
        block: &[],
        rest: blocks,
    }
}

/// The rows whose keys aren't below this one.
pub(crate) fn from<K: Ord + Copy, V: Copy>(blocks: &[Vec<(K, V)>], key: K) -> Rows<'_, K, V>
    requires sorted { Holds (is_sorted K.cmp (rows_in blocks.now)) }
    requires used { AreUsed blocks.now }
    requires few { length (rows_in blocks.now) < 2 ^ 64 }
    ensures { rows_left result ≡ rows_from K.cmp key (rows_in blocks.now) }
{
    if blocks.is_empty() {
        return all(blocks);
    }
    let at = find_block(blocks, key);
    let block: &[(K, V)] = &blocks[at];
    let (Found::At(i) | Found::Before(i)) = find_place(block, key);
    Rows {
        block: &block[i..],
        rest: &blocks[at + 1..],
    }
}
