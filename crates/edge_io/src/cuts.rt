ghost use Rattle.std.specs.Prelude.{◌≡◌, ◌≤◌, ◌<◌, All};
ghost use Rattle.edge_io.specs.Memory.{moved};

/// How many bytes a call moves of `most`, after `turn` calls that moved bytes: the sizes are used
/// round and round.
pub fn cut(sizes: &[usize], turn: usize, most: usize) -> usize
    requires some { All (λ size. 1 ≤ size) sizes.now }
    requires room { 0 < most }
    ensures exact { result ≡ moved sizes.now turn most }
    ensures least { 1 ≤ result }
    ensures bound { result ≤ most }
{
    if sizes.is_empty() {
        return most;
    }
    sizes[turn % sizes.len()].min(most)
}
