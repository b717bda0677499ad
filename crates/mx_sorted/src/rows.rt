//! An iterator over rows in blocks.

ghost use Rattle.std.specs.Prelude.{◌<◌, ◌^◌, ◌++◌, length};
ghost use Rattle.std.specs.Iterator.{YieldsFirstRef, item_count};
ghost use Rattle.mx_sorted.specs.Blocks.{rows_in};

/// Rows of a table that are yet to be given, in order.
#[derive(Drop)]
pub struct Rows<'a, K, V> {
    /// What is left of one block.
    pub(crate) block: &'a [(K, V)],
    /// The blocks after it.
    pub(crate) rest: &'a [Vec<(K, V)>],
    ghost few: { length (block.now ++ rows_in rest.now) < 2 ^ 64 },
}

impl<'a, K, V> Iterator for Rows<'a, K, V> {
    type Item = &'a (K, V);

    ghost next_gives = { YieldsFirstRef (λ s. s.block.now ++ rows_in s.rest.now) };

    ghost remaining = { item_count (λ s. s.block.now ++ rows_in s.rest.now) };

    fn next(&mut self) -> Option<&'a (K, V)> {
        while self.block.is_empty() {
            let (block, rest) = self.rest.split_first()?;
            self.block = block;
            self.rest = rest;
        }
        let (row, block) = self.block.split_first()?;
        self.block = block;
        Some(row)
    }
}
