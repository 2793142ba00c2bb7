// Sets of small numbers as masks: element `v` is in the set `m` where bit `v` of `m` is 1. An element is below `width`.
// Each function says by an equation which set of `specs/Sets.antt` it gives; what follows of it is in `specs/Laws/`.
#![tactic(auto)]

ghost use Rattle.std.specs.Prelude.{◌≡◌, ◌≤◌, ◌<◌};
ghost use Rattle.sets.specs.Sets as set;
ghost use Rattle.sets.specs.Sets.{width, Lowest, Counted};

mod iter;

pub use iter::{Iter, members};

// Whether `v` is in `m`.
#[tactic(auto, using(crate::specs::Laws::Code::shr_and_one), unfolding(crate::specs::Sets::has))]
pub fn has(m: u64, v: u32) -> bool
    requires { v < width }
    ensures { result ≡ set.has m v }
{
    (m >> v) & 1 == 1
}

// The set of `v` alone.
pub fn single(v: u32) -> u64
    requires { v < width }
    ensures { result ≡ set.single v }
{
    1u64 << v
}

// The set of all elements below `n`. A shift by 64 is not defined, so that case stands apart.
pub fn full(n: u32) -> u64
    requires { n ≤ width }
    ensures { result ≡ set.full n }
{
    if n < 64 { single(n) - 1 } else { !0u64 }
}

// The elements of `a` or of `b`.
pub fn union(a: u64, b: u64) -> u64
    ensures { result ≡ set.union a b }
{
    a | b
}

// The elements of both `a` and `b`.
pub fn intersection(a: u64, b: u64) -> u64
    ensures { result ≡ set.inter a b }
{
    a & b
}

// The elements of `a` that are not in `b`.
pub fn difference(a: u64, b: u64) -> u64
    ensures { result ≡ set.diff a b }
{
    a & !b
}

// The elements below `n` that are not in `m`.
#[tactic(auto, unfolding(crate::specs::Sets::compl))]
pub fn complement(n: u32, m: u64) -> u64
    requires { n ≤ width }
    ensures { result ≡ set.compl n m }
{
    difference(full(n), m)
}

// `m` with `v`.
#[tactic(auto, unfolding(crate::specs::Sets::insert))]
pub fn insert(m: u64, v: u32) -> u64
    requires { v < width }
    ensures { result ≡ set.insert m v }
{
    m | single(v)
}

// `m` without `v`.
#[tactic(auto, unfolding(crate::specs::Sets::remove))]
pub fn remove(m: u64, v: u32) -> u64
    requires { v < width }
    ensures { result ≡ set.remove m v }
{
    difference(m, single(v))
}

// Whether each element of `a` is in `b`.
#[tactic(auto, unfolding(crate::specs::Sets::subset))]
pub fn subset(a: u64, b: u64) -> bool
    ensures { result ≡ set.subset a b }
{
    difference(a, b) == 0
}

// The least element of `m`, which is not empty.
pub fn lowest(m: u64) -> u32
    requires { 0 < m }
    ensures { Lowest m result }
{
    u64::trailing_zeros(m)
}

// How many elements `m` has.
pub fn count(m: u64) -> u32
    ensures { Counted m result }
{
    u64::count_ones(m)
}
