//! Laws of fields. Each is the contract of a function that does nothing.
ghost use Rattle.std.specs.Prelude.{◌≡◌, ◌⊎◌, ◌+◌, ◌^◌, ◌<◌, ◌≤◌, ℕ, List, length, take, drop, slice_index};
ghost use Rattle.hx_bytes.specs.Field.{put_at, number_at, number_bytes, AreBytes};
ghost use Rattle.hx_bytes.specs.declared.fields.Order.{Order};

/// A number that was written into a field is read from it.
pub fn numbers_are_read_back()
    ensures { (order : Order) (n x at : ℕ) (bytes : List ℕ) → at + n ≤ length bytes → x < 256 ^ n
        → number_at order n (put_at bytes at (number_bytes order n x)) at ≡ x }
{}

/// A number that was read from a field has that field's bytes.
pub fn fields_are_written_back()
    ensures two { (order : Order) (at : ℕ) (bytes : List ℕ) → at + 2 ≤ length bytes → AreBytes bytes
        → number_bytes order 2 (number_at order 2 bytes at) ≡ take 2 (drop at bytes) }
    ensures four { (order : Order) (at : ℕ) (bytes : List ℕ) → at + 4 ≤ length bytes → AreBytes bytes
        → number_bytes order 4 (number_at order 4 bytes at) ≡ take 4 (drop at bytes) }
    ensures eight { (order : Order) (at : ℕ) (bytes : List ℕ) → at + 8 ≤ length bytes → AreBytes bytes
        → number_bytes order 8 (number_at order 8 bytes at) ≡ take 8 (drop at bytes) }
{}

/// A write into a field leaves all other bytes.
pub fn other_bytes_stay()
    ensures { (bytes new : List ℕ) (at k : ℕ) → at + length new ≤ length bytes → (k < at) ⊎ (at + length new ≤ k)
        → slice_index (put_at bytes at new) k ≡ slice_index bytes k }
{}
