//! What a tree has to know of its records: their order, their bytes and keys, and which of them may stand in one tree.
ghost use Rattle.std.specs.Prelude.{◌≡◌, ℕ, Bool, length, IsTrue};
ghost use Rattle.xr_kinds.specs.Form.{Form, IsForm, HasNumbers};

use std::cmp::Ordering;

/// A record of one kind of tree. Its form has all that contracts say of the kind: the order of the records, their bytes
/// and keys, and which of them may stand together.
pub trait Record: Copy {
    ghost MAGIC: { ℕ };

    ghost LONG: { Bool };

    ghost SIZE: { ℕ };

    ghost LOW: { ℕ };

    ghost HIGH: { ℕ };

    ghost LEAF_MAX: { ℕ };

    ghost NODE_MAX: { ℕ };

    ghost MOST: { ℕ };

    ghost form: { Form Self };

    /// The first word of the tree's blocks.
    const MAGIC: u32;

    /// Whether the tree's blocks have the long header, of 72 bytes, and pointers of 8 bytes. The short header has 56, and
    /// the pointers with it have 4.
    const LONG: bool;

    /// Bytes of a record.
    const SIZE: usize;

    /// Bytes of a key.
    const LOW: usize;

    /// Bytes of a high key, or 0 where the tree has none.
    const HIGH: usize;

    /// The greatest number of records in a leaf.
    const LEAF_MAX: u32;

    /// The greatest number of children of a node.
    const NODE_MAX: u32;

    /// The greatest number of records in a tree.
    const MOST: u32;

    /// Whether the record may stand in a tree at all.
    fn valid(&self) -> bool
        ensures { result ≡ form.is_valid self.now };

    /// How the records stand in the order of the tree.
    fn compare(&self, other: &Self) -> Ordering
        ensures { result ≡ form.order self.now other.now };

    /// Writes the record.
    fn put(&self, out: &mut [u8])
        requires valid { IsTrue (form.is_valid self.now) }
        requires room { length out.old ≡ SIZE }
        ensures { out.new ≡ form.bytes_of self.now };

    /// Reads a record, if the bytes are those of a valid one.
    fn take(bytes: &[u8]) -> Option<Self>
        requires { length bytes.now ≡ SIZE }
        ensures { result ≡ form.taken bytes.now };

    /// Writes the record's key.
    fn put_low(&self, out: &mut [u8])
        requires valid { IsTrue (form.is_valid self.now) }
        requires room { length out.old ≡ LOW }
        ensures { out.new ≡ form.low_of self.now };

    /// Writes the record's high key, the key of its last block.
    fn put_high(&self, out: &mut [u8])
        requires valid { IsTrue (form.is_valid self.now) }
        requires room { length out.old ≡ HIGH }
        ensures { out.new ≡ form.high_of self.now };

    /// How the record stands to those with a key.
    fn compare_low(&self, key: &[u8]) -> Ordering
        requires { length key.now ≡ LOW }
        ensures { result ≡ form.key_order self.now key.now };

    /// Whether the two have a block in common, or, in a file's map, an offset.
    fn meets(&self, other: &Self) -> bool
        ensures { result ≡ form.meet self.now other.now };

    /// Whether two different records may stand in one tree.
    fn agrees(&self, other: &Self) -> bool
        ensures { result ≡ form.agree self.now other.now };

    ghost numbers: { HasNumbers form MAGIC LONG SIZE LOW HIGH LEAF_MAX NODE_MAX MOST };

    ghost is_form: { IsForm form };
}
