//! Marks that are set while explaining, and are clear again on every way out.
ghost use Rattle.std.specs.Prelude.{◌≡◌, ℕ, false, length, slice_index_or};

/// Holds the mark table while marks are set; dropping it clears every mark.
pub(crate) struct Marks<'a> {
    pub(crate) table: &'a mut [bool],
}

impl Drop for Marks<'_> {
    fn drop(self)
        ensures long { length self.exit.0.now ≡ length self.entry.table.now }
        ensures clear { (k : ℕ) → slice_index_or self.exit.0.now k false ≡ false }
    {
        let Marks { table } = self;
        table.fill(false);
    }
}
