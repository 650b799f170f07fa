//! Numbers in order, of which one is looked up by halves.
ghost use Rattle.std.specs.Prelude.{◌≡◌, ◌≤◌, ◌==◌, ℕ, true, false, nat_lt, length};
ghost use Rattle.std.specs.List.Sorted.{IsNonDecreasing, IsPartitionPoint};
ghost use Rattle.alloc_bitmap.specs.Apart.{times};

/// Puts numbers in order.
pub(crate) fn sort_numbers(numbers: &mut Vec<u32>)
    ensures order { IsNonDecreasing numbers.new.items }
    ensures same { (number : ℕ) → times number numbers.new.items ≡ times number numbers.old.items }
{
    numbers.sort_unstable();
}

/// How many numbers stand before the first that isn't below this one.
fn numbers_below(numbers: &[u32], number: u64) -> usize
    ensures inside { result ≤ length numbers.now }
    ensures point { IsNonDecreasing numbers.now → IsPartitionPoint (λ other. nat_lt other number ≡ true) (λ other. nat_lt other number ≡ false) numbers.now result }
{
    numbers.partition_point(
        |other: &u32| -> bool
            ensures { result ≡ nat_lt other.now number }
        { (*other as u64) < number },
    )
}

/// How many of numbers in order are this one, found by halves.
pub fn count_number(numbers: &[u32], number: u32) -> u64
    ensures { IsNonDecreasing numbers.now → result ≡ times number numbers.now }
{
    let from = numbers_below(numbers, number as u64);
    let to = numbers_below(numbers, number as u64 + 1);
    (to as u64).saturating_sub(from as u64)
}
