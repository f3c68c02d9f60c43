// What the step answers about the depending variables: how many there are, and the lowest of them.
ghost use Rattle.std.specs.Prelude.{◌≡◌, true, ℕ, ◌≤◌, length};
ghost use Rattle.formula.specs.Tree.{Formula, distinct};
ghost use Rattle.formula.specs.Outer.{dependents, lowest_of};
ghost use Rattle.dependence.specs.Dependents.{Dependents};

use rows::NUMBERS;
use sets::{count, lowest};

// How many variables depend on x, by the ones of the words.
pub fn count_dependents(set: &[u64]) -> usize
    requires { length set.now ≡ 17 }
    ensures by_index { (x : ℕ) (f : Formula) → distinct f.prefix ≡ true → Dependents x f set.now → result ≡ length (dependents x f) }
    ensures upper_bound { result ≤ 1088 }
{
    count(set)
}

// The lowest number in the set, or 0 if it is empty: by the trailing zeros of the first word that is not 0.
pub fn lowest_dependent(set: &[u64]) -> usize
    requires { length set.now ≡ 17 }
    ensures { (x : ℕ) (f : Formula) → Dependents x f set.now → result ≡ lowest_of (dependents x f) }
{
    let v = lowest(set);
    if v < NUMBERS { v } else { 0 }
}
