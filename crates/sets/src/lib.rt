// Sets of small numbers, each held in one machine word: bit j stands for the number j. Only this
// crate knows how a set is held; what it promises speaks of membership alone.
#![tactic(auto)]

ghost use Rattle.std.specs.Prelude.{◌≡◌, ℕ, true, false, not, ◌&&◌, ◌||◌, Decides, ◌==◌, nat_lt};
ghost use Rattle.sets.specs.Sets.{has, width, Selected};

pub type Set = u64;

// A set holds numbers below this.
pub const WIDTH: usize = 64;

pub fn empty() -> Set
    ensures { (j : ℕ) → has result j ≡ false }
{
    0
}

// The set of the numbers below `n`, as far as a set goes.
pub fn below(n: usize) -> Set
    ensures { (j : ℕ) → has result j ≡ (nat_lt j n && nat_lt j width) }
{
    if n < WIDTH { (1 << n) - 1 } else { u64::MAX }
}

pub fn contains(set: Set, j: usize) -> bool
    ensures { result ≡ has set j }
{
    j < WIDTH && (set >> j) % 2 == 1
}

// The set with the number `j` in it; a number that no set holds changes nothing.
pub fn with(set: Set, j: usize) -> Set
    ensures { (i : ℕ) → has result i ≡ (has set i || (i == j && nat_lt i width)) }
{
    if j < WIDTH { set | (1 << j) } else { set }
}

pub fn without(set: Set, j: usize) -> Set
    ensures { (i : ℕ) → has result i ≡ (has set i && not (i == j)) }
{
    minus(set, with(empty(), j))
}

pub fn union(a: Set, b: Set) -> Set
    ensures { (i : ℕ) → has result i ≡ (has a i || has b i) }
{
    a | b
}

pub fn intersection(a: Set, b: Set) -> Set
    ensures { (i : ℕ) → has result i ≡ (has a i && has b i) }
{
    a & b
}

// The numbers of `a` that are not in `b`.
pub fn minus(a: Set, b: Set) -> Set
    ensures { (i : ℕ) → has result i ≡ (has a i && not (has b i)) }
{
    a & !b
}

// Whether some number is in both.
pub fn meets(a: Set, b: Set) -> bool
    ensures { Decides result ((j : ℕ) × ((has a j && has b j) ≡ true)) }
{
    a & b != 0
}

// Whether every number of `a` is in `b`.
pub fn is_within(a: Set, b: Set) -> bool
    ensures { Decides result ((j : ℕ) → has a j ≡ true → has b j ≡ true) }
{
    a & b == a
}

// The numbers below `n` that pass a test, as far as a set goes. The test is made once for each.
pub fn select<F: Fn(usize) -> bool>(n: usize, test: F) -> Set
    requires { F.IsAlwaysCallable test }
    ensures { Selected n (F.post test) result }
{
    let mut found = empty();
    for i in 0..n.min(WIDTH) {
        if test(i) {
            found = with(found, i);
        }
    }
    found
}
