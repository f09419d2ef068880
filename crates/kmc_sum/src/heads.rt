//! The next line of each of many sources, and which of them has the least word: a tree in one list. The heads of n
//! sources stand at the places n to 2n - 1, and each place j from 1 to n - 1 repeats the lesser of those at 2j and
//! 2j + 1, so that the place 1 has the least of all. Where one changes, about log2 n comparisons mend the tree.
ghost use Rattle.std.specs.Prelude.{◌≡◌, ◌≢◌, ℕ, ◌+◌, ◌*◌, ◌<◌, ◌≤◌, ◌↔◌, IsTrue, length};
ghost use Rattle.kmc_sum.specs.Heads.{rank, head_at, IsWinner, IsTree};

/// The next line of a source: its packed word and count. A source that has ended is not live. In this order no field has its
/// place in a result where an error has a part of one, so that each is handed on as a whole.
#[derive(Clone, Copy)]
pub struct Head {
    pub source: usize,
    pub live: bool,
    pub count: u64,
    pub packed: u128,
}

/// Whether the first stands before the second, or at one place with it. It has no branch, since none could be foretold.
fn is_first(a: &Head, b: &Head) -> bool
    ensures { IsTrue result ↔ (rank a.now ≤ rank b.now) }
{
    let (first, second) = (a.packed, b.packed);
    !b.live | (a.live & (first <= second))
}

/// Repeats the lesser of the two below a place at that place, without a branch.
fn settle(heads: &mut [Head], node: usize)
    requires some { 1 ≤ node }
    requires inside { 2 * node + 1 < length heads.old }
    ensures winner { IsWinner heads.new node }
    ensures others { (j : ℕ) → j ≢ node → head_at heads.new j ≡ head_at heads.old j }
{
    let child = 2 * node;
    let is_right = !is_first(&heads[child], &heads[child + 1]);
    heads[node] = heads[child + usize::from(is_right)];
}

/// Settles this place and those above it, where all other places are settled.
pub fn mend(heads: &mut [Head], node: usize)
    requires inside { 2 * node + 1 < length heads.old }
    requires others { (j : ℕ) → j ≢ node → 1 ≤ j → 2 * j + 1 < length heads.old
        → IsWinner heads.old j }
    ensures tree { IsTree heads.new }
    ensures leaves { (j : ℕ) → length heads.old ≤ 2 * j
        → head_at heads.new j ≡ head_at heads.old j }
{
    let mut node = node;
    while node > 0 {
        settle(heads, node);
        node /= 2;
    }
}

/// Settles each place that has two below it.
pub fn build(heads: &mut [Head])
    ensures tree { IsTree heads.new }
    ensures leaves { (j : ℕ) → length heads.old ≤ 2 * j
        → head_at heads.new j ≡ head_at heads.old j }
{
    let mut node = heads.len() / 2;
    while node > 1 {
        node -= 1;
        settle(heads, node);
    }
}
