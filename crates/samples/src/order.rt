// The order of the fillings: variable 1 is weightiest, and no comes before yes. Bit v - 1 of a filling stands for variable v.

// Whether one filling comes before another: the lowest bit in which they differ is the other's.
pub fn comes_before(filling: u64, other: u64) -> bool {
    let differ = filling ^ other;
    let lowest = differ & differ.wrapping_neg();
    other & lowest != 0
}
