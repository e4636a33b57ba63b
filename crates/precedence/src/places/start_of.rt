//! Searches ascending numbers from a hint on.

ghost use Rattle.std.specs.Prelude.{◌≡◌, ◌+◌, ◌<◌, ◌≤◌, IsTrue, length};
ghost use Rattle.std.specs.List.Sorted.{IsStrictlyIncreasing};
ghost use Rattle.precedence.specs.inner.Rows.{start_of};

/// Returns the number of ascending numbers below `target`. `hint` is a guess: it changes the time and not the result. The search is
/// fastest if the hint is one less than the result, and fast if it is slightly less.
#[inline(always)]
pub fn start_of(numbers: &[u64], hint: usize, target: u64) -> usize
    requires { IsStrictlyIncreasing numbers.now }
    ensures { result ≡ start_of target numbers.now }
{
    if is_last_below(numbers, hint, target) {
        return hint + 1;
    }
    let low = checked_hint(numbers, hint, target);
    let (low, high) = bounds_by_doubling(numbers, low, target);
    place_by_halving(numbers, low, high, target)
}

/// Returns whether the number at the hint is the last below the target, and another follows, as is mostly so for the next block of a row.
#[tactic(auto, using(crate::proofs::ranges::Starts::starts))]
#[inline(always)]
pub fn is_last_below(numbers: &[u64], hint: usize, target: u64) -> bool
    requires { IsStrictlyIncreasing numbers.now }
    ensures last { IsTrue result → start_of target numbers.now ≡ hint + 1 }
    ensures within { IsTrue result → hint < length numbers.now }
{
    hint < numbers.len().saturating_sub(1) && numbers[hint] < target && target <= numbers[hint + 1]
}

// Returns the hint if all numbers before it are below the target, else 0.
#[tactic(auto, using(crate::proofs::ranges::Starts::starts))]
#[inline(always)]
fn checked_hint(numbers: &[u64], hint: usize, target: u64) -> usize
    requires { IsStrictlyIncreasing numbers.now }
    ensures { result ≤ start_of target numbers.now }
{
    if 0 < hint && hint <= numbers.len() && numbers[hint - 1] < target {
        hint
    } else {
        0
    }
}

// Returns bounds of the result from `low` on, by steps that double.
#[tactic(auto, using(crate::proofs::ranges::Starts::starts))]
#[inline(always)]
fn bounds_by_doubling(numbers: &[u64], low: usize, target: u64) -> (usize, usize)
    requires rising { IsStrictlyIncreasing numbers.now }
    requires low { low ≤ start_of target numbers.now }
    ensures low { result.0 ≤ start_of target numbers.now }
    ensures high { start_of target numbers.now ≤ result.1 }
    ensures within { result.1 ≤ length numbers.now }
{
    let mut low = low;
    let mut step = 1;
    while step <= numbers.len() - low && numbers[low + step - 1] < target {
        low += step;
        step *= 2;
    }
    (low, numbers.len().min(low.saturating_add(step - 1)))
}

// Returns the result between two bounds, by halving.
#[tactic(auto, using(crate::proofs::ranges::Starts::starts))]
#[inline(always)]
fn place_by_halving(numbers: &[u64], low: usize, high: usize, target: u64) -> usize
    requires rising { IsStrictlyIncreasing numbers.now }
    requires low { low ≤ start_of target numbers.now }
    requires high { start_of target numbers.now ≤ high }
    requires within { high ≤ length numbers.now }
    ensures { result ≡ start_of target numbers.now }
{
    let mut low = low;
    let mut high = high;
    while low < high {
        let middle = low + (high - low) / 2;
        if numbers[middle] < target {
            low = middle + 1;
        } else {
            high = middle;
        }
    }
    low
}
