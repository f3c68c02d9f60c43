// Hashes, mixed from a literal's row or from the children's hashes.
ghost use Rattle.std.specs.Prelude.{◌≡◌, ◌^◌, ◌<◌};
ghost use Rattle.buckets.specs.Hashes.{literal_mix, mix};

// The hash of a literal: `sign` is 1 for a variable and 0 for its negation.
pub fn literal_hash(sign: usize, x: usize) -> usize
    requires { (sign < 2) × (x < 2 ^ 32) }
    ensures { (result ≡ literal_mix sign x) × (result < 65536) }
{
    x % 32768 * 2 + sign
}

// The hash `h` of an operator over its first children, with the hash `p` of one more child mixed in.
pub fn mixed(h: usize, p: usize) -> usize
    requires { (h < 65536) × (p < 65536) }
    ensures { (result ≡ mix h p) × (result < 65536) }
{
    (h + p) * 42109 % 65536
}
