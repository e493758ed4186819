//! Places in the order of records, by which lookups say what they look for.
ghost use Rattle.std.specs.Prelude.{◌≡◌, length};
ghost use Rattle.xr_block.specs.Bounds.{is_before, key_is_before};

use xr_kinds::Record;

/// A place between the records of a tree.
#[derive(Clone, Copy)]
pub enum Bound<R> {
    Start,
    Before(R),
    After(R),
}

impl<R: Record> Bound<R> {
    /// Whether a record stands before the place.
    pub fn passes(&self, other: &R) -> bool
        ensures { result ≡ is_before R.form self.now other.now }
    {
        match self {
            Bound::Start => false,
            Bound::Before(r) => other.compare(r).is_lt(),
            Bound::After(r) => other.compare(r).is_le(),
        }
    }

    /// Whether the records with a key stand before the place.
    pub fn passes_key(&self, key: &[u8]) -> bool
        requires { length key.now ≡ R.LOW }
        ensures { result ≡ key_is_before R.form self.now key.now }
    {
        match self {
            Bound::Start => false,
            Bound::Before(r) => r.compare_low(key).is_gt(),
            Bound::After(r) => r.compare_low(key).is_ge(),
        }
    }
}
