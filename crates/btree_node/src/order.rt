//! The order of the keys of a tree.
ghost use Rattle.std.specs.Prelude.{◌≡◌, ◌<◌, ◌≤◌, ℕ, ◌+◌, ◌↔◌, Bool, true, List, IsTrue, length};
ghost use Rattle.std.specs.declared.cmp.Ordering.{Ordering};
ghost use Rattle.std.specs.declared.cmp.Ordering.TheVariants.{Equal};
ghost use Rattle.std.specs.Cmp.{IsTotalOrder};
ghost use Rattle.hx_bytes.specs.Field.{AreBytes, big_at};

use std::cmp::Ordering;

/// An order of keys, and which bytes are a key and a value of its tree (TN1150, "Keyed Records").
pub trait KeyOrder {
    /// These bytes are a key, with its length in front.
    ghost is_key: { List ℕ → Type 0 };

    /// How two keys stand to each other.
    ghost cmp: { List ℕ → List ℕ → Ordering };

    /// The key with zeros in its bytes of padding.
    ghost plain: { List ℕ → List ℕ };

    /// These bytes are a value of the order's tree.
    ghost is_value: { List ℕ → Type 0 };

    ghost MAX: { ℕ };

    ghost FIXED: { Bool };

    /// The greatest length of a key, which doesn't count the two bytes of the length itself.
    const MAX: u32;

    /// Whether all keys have one length.
    const FIXED: bool;

    fn compare(a: &[u8], b: &[u8]) -> Ordering
        requires first { is_key a.now }
        requires second { is_key b.now }
        ensures { result ≡ cmp a.now b.now };

    /// Whether these bytes are a key.
    fn valid(key: &[u8]) -> bool
        ensures { IsTrue result ↔ is_key key.now };

    /// Whether these bytes are a value of the order's tree.
    fn valid_value(value: &[u8]) -> bool
        ensures { IsTrue result ↔ is_value value.now };

    ghost total: { IsTotalOrder cmp };

    /// Keys of one place in the order are equal, but for their padding.
    ghost same: { (a b : List ℕ) → AreBytes a → AreBytes b → is_key a → is_key b → cmp a b ≡ Equal → plain a ≡ plain b };

    ghost plain_length: { (a : List ℕ) → length (plain a) ≡ length a };

    /// A key is as long as it says.
    ghost key_length: { (a : List ℕ) → is_key a → length a ≡ big_at 2 a 0 + 2 };

    ghost key_most: { (a : List ℕ) → is_key a → length a ≤ MAX + 2 };

    /// Keys of one place in the order have one length.
    ghost same_length: { (a b : List ℕ) → is_key a → is_key b → cmp a b ≡ Equal → length a ≡ length b };

    ghost one_length: { (a b : List ℕ) → FIXED ≡ true → is_key a → is_key b → length a ≡ length b };
}
