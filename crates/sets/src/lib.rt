// Sets of variable numbers as 64-bit words, 64 numbers to a word: membership, size and lowest member.
#![tactic(auto)]

ghost use Rattle.std.specs.Prelude.{◌≡◌, ◌&&◌, ◌||◌, ℕ, ◌+◌, ◌*◌, ◌≤◌, ◌<◌, eqb, length};
ghost use Rattle.sets.specs.Sets.{holds, IsFirst, IsLowest, left_in, size};

// Words that are enough for the numbers of the wider format, 0 to 1,024.
pub const WORDS: usize = 17;

// Whether `v` is in the set.
pub fn holds(set: &[u64], v: usize) -> bool
    requires { v < 64 * length set.now }
    ensures { result ≡ holds set.now v }
{
    (set[v / 64] >> (v % 64)) % 2 == 1
}

// Puts `v` into the set.
pub fn add(set: &mut [u64], v: usize)
    requires { v < 64 * length set.old }
    ensures set_len_unchanged { length set.new ≡ length set.old }
    ensures by_index { (u : ℕ) → holds set.new u ≡ (eqb u v || holds set.old u) }
{
    let i = v / 64;
    set[i] = set[i] | (1u64 << (v % 64));
}

// How many numbers are in the set.
pub fn count(set: &[u64]) -> usize
    requires { length set.now ≤ 17 }
    ensures { result ≡ size set.now }
{
    let mut sum: usize = 0;
    for word in set {
        sum += word.count_ones() as usize;
    }
    sum
}

// The lowest number in the set, or 64 times the words if it is empty.
pub fn lowest(set: &[u64]) -> usize
    requires { length set.now ≤ 17 }
    ensures { IsLowest set.now result }
{
    for (i, word) in set.iter().enumerate() {
        if *word != 0 {
            return 64 * i + word.trailing_zeros() as usize;
        }
    }
    64 * set.len()
}

// The lowest number that is in two sets and not in a third, or 64 times the words if there is none.
pub fn lowest_left(first: &[u64], second: &[u64], taken: &[u64]) -> usize
    requires { (length first.now ≤ 17) × (length second.now ≡ length first.now) × (length taken.now ≡ length first.now) }
    ensures { IsFirst (left_in first.now second.now taken.now) (64 * length first.now) result }
{
    for i in 0..first.len() {
        let left = first[i] & second[i] & !taken[i];
        if left != 0 {
            return 64 * i + left.trailing_zeros() as usize;
        }
    }
    64 * first.len()
}

// Makes `set` the numbers that are in both of the others.
pub fn intersect(first: &[u64], second: &[u64], set: &mut [u64])
    requires { (length second.now ≡ length first.now) × (length set.old ≡ length first.now) }
    ensures set_len_unchanged { length set.new ≡ length set.old }
    ensures by_index { (v : ℕ) → holds set.new v ≡ (holds first.now v && holds second.now v) }
{
    for i in 0..set.len() {
        set[i] = first[i] & second[i];
    }
}
