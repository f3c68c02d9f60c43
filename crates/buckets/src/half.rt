// Two numbers of 16 bits packed into one of 32. The lower half is a tree's hash; the upper half is the row where the tree begins, or the
// number of children of its operator.
ghost use Rattle.std.specs.Prelude.{◌≡◌, ◌^◌, ◌<◌};
ghost use Rattle.buckets.specs.Halves.{member_of, row_of, known_of, children_of, hash_of};

// A member of the tables: a tree, given by its row and its hash.
pub fn member_of(row: usize, hash: usize) -> usize
    requires { (row < 65536) × (hash < 65536) }
    ensures { (result ≡ member_of row hash) × (result < 2 ^ 32) }
{
    row * 65536 + hash
}

// The row of a member.
pub fn row_of(m: usize) -> usize
    ensures { result ≡ row_of m }
{
    m / 65536
}

// What a table holds for an operator: its number of children and its hash.
pub fn known_of(children: usize, hash: usize) -> usize
    requires { (children < 65536) × (hash < 65536) }
    ensures { (result ≡ known_of children hash) × (result < 2 ^ 32) }
{
    children * 65536 + hash
}

// The number of children in such an entry.
pub fn children_of(w: usize) -> usize
    ensures { result ≡ children_of w }
{
    w / 65536
}

// The hash in a member or in such an entry.
pub fn hash_of(x: usize) -> usize
    ensures { (result ≡ hash_of x) × (result < 65536) }
{
    x % 65536
}
