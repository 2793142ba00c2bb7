// Numbers that look random and are the same in every run.
// A xorshift generator: the state after this one. A state that is not 0 never leads to 0.
pub fn next(seed: u64) -> u64 {
    let a = seed ^ (seed << 13);
    let b = a ^ (a >> 7);
    b ^ (b << 17)
}

// A two-byte number out of a state.
pub fn pair(seed: u64) -> u16 {
    ((seed >> 32) % 65536) as u16
}

// A two-byte number below `n`, or 0.
pub fn pair_below(seed: u64, n: u16) -> u16 {
    if n == 0 { 0 } else { pair(seed) % n }
}

pub fn byte(seed: u64) -> u8 {
    ((seed >> 32) % 256) as u8
}

// A byte below `n`, or 0.
pub fn byte_below(seed: u64, n: u8) -> u8 {
    if n == 0 { 0 } else { byte(seed) % n }
}

// A place below `n`, or 0.
pub fn place_below(seed: u64, n: usize) -> usize {
    if n == 0 {
        0
    } else {
        usize::from(pair(seed)) % n
    }
}
