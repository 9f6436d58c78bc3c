// Sets as the bits of a u64: r is in the set where bit r is 1.
#![tactic(auto)]

ghost use Rattle.std.specs.Prelude.{◌≡◌, ◌<◌, ◌^◌, eqb};
ghost use Rattle.laws.specs.Sets.{bit, with, without, Lowest};

// Whether r is in the set.
#[tactic(auto, unfolding(laws::specs::Sets::bit))]
pub fn has(set: u64, r: u8) -> bool
    requires { r < 64 }
    ensures { result ≡ eqb (bit set r) 1 }
{
    (set >> r) & 1 == 1
}

// The set of r alone.
pub fn only(r: u8) -> u64
    requires { r < 64 }
    ensures { result ≡ 2 ^ r }
{
    1 << r
}

// The set and r.
#[tactic(auto, unfolding(laws::specs::Sets::with))]
pub fn with(set: u64, r: u8) -> u64
    requires { r < 64 }
    ensures { result ≡ with set r }
{
    set | only(r)
}

// The set but for what is in the other.
pub fn without(set: u64, other: u64) -> u64
    ensures { result ≡ without set other }
{
    set & !other
}

// The lowest of the set.
pub fn lowest(set: u64) -> u8
    requires { 0 < set }
    ensures { Lowest set result }
{
    set.trailing_zeros() as u8
}
