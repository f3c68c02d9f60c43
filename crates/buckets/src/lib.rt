// Chains of members: the members of one bucket are found without a walk over the others. A member is a tree, given by its row and its hash
// in one number; members are numbered in the order in which they are added, and a member's hash gives its bucket. The tables may hold
// anything at first: an entry is used only if the member that it names exists and is in that bucket.
#![tactic(auto)]

ghost use Rattle.std.specs.Prelude.{◌≡◌, ◌+◌, ◌^◌, ◌≤◌, ◌<◌, length, get_or, set};
ghost use Rattle.buckets.specs.Chains.{entry_of, BUCKETS, bucket, last, Head, Linked, Room};

pub mod half;
pub mod hash;

// How many buckets there are: a table of heads has an entry for each.
pub const BUCKETS: usize = 1024;

// A number of 32 bits as a `usize`.
pub fn large(x: u32) -> usize
    ensures { (result ≡ x) × (result < 2 ^ 32) }
{
    x as usize
}

// The link that an entry of a table means, to a member by its number or to none: 0 is the chain's end, any other number is one more than the
// member's number.
pub fn link_of(entry: usize) -> Option<usize>
    ensures { entry_of result ≡ entry }
{
    entry.checked_sub(1)
}

// The entry that means a link.
pub fn entry_of(l: Option<usize>) -> usize
    requires { entry_of l < 65536 }
    ensures { result ≡ entry_of l }
{
    match l {
        None => 0,
        Some(i) => i + 1,
    }
}

// The bucket that a member falls into, by its hash. It is no variable's: literals of four variables share one, and siblings that meet
// in a bucket are compared with one another.
pub fn bucket_of(m: usize) -> usize
    ensures { (result ≡ bucket m) × (result < BUCKETS) }
{
    m / 8 % BUCKETS
}

// The last of the first `n` members that is in bucket `k`.
pub fn first(heads: &[u16], members: &[u32], n: usize, k: usize) -> Option<usize>
    requires { (k < length heads.now) × (n ≤ length members.now) × Head members.now k n (get_or heads.now k 0) }
    ensures { result ≡ last members.now k n }
{
    let i = link_of(usize::from(heads[k]))?;
    if n <= i {
        return None;
    }
    if bucket_of(member(members, i)) != k {
        return None;
    }
    Some(i)
}

// The last member before member `i` that is in the same bucket.
pub fn behind(links: &[u16], i: usize) -> Option<usize>
    requires { i < length links.now }
    ensures { entry_of result ≡ get_or links.now i 0 }
{
    link_of(usize::from(links[i]))
}

// Member `i`.
pub fn member(members: &[u32], i: usize) -> usize
    requires { i < length members.now }
    ensures { (result ≡ get_or members.now i 0) × (result < 2 ^ 32) }
{
    large(members[i])
}

// Adds a member behind the first `n`.
pub fn add(heads: &mut [u16], links: &mut [u16], members: &mut [u32], n: usize, m: usize)
    requires { Room heads.old links.old members.old (n + 1) × (m < 2 ^ 32) × Linked heads.old links.old members.old n }
    ensures { (members.new ≡ set members.old n m) × Linked heads.new links.new members.new (n + 1) }
{
    let k = bucket_of(m);
    links[n] = entry_of(first(heads, members, n, k)) as u16;
    members[n] = m as u32;
    heads[k] = entry_of(Some(n)) as u16;
}
