// Long sums, for the examples that meet a limit.

// The letter + so many times, and then only a.
pub fn long_sum<const N: usize>(joins: usize) -> [u8; N] {
    std::array::from_fn(|place| if place < joins { b'+' } else { b'a' })
}
