// A key by its head, which tells most keys apart.
ghost use Rattle.std.specs.Prelude.{◌≡◌, true, ◌+◌, ◌≤◌, length, get_or, drop};
ghost use Rattle.blocks.specs.Blocks.{key_in};
ghost use Rattle.search.specs.Keys.{rank, is_order, IsHead, SharesHead};

use crate::rank_at;
use std::cmp::Ordering;

// A key, its first sixteen bytes as two numbers with zeros behind a shorter key, and how many bytes another key needs to be after it by these alone.
#[derive(Drop)]
pub struct Head<'a> {
    key: &'a [u8],
    first: u64,
    second: u64,
    need: usize,
    ghost is_head: { IsHead key.now first second need },
}

// The first eight bytes of a key as a number, zeros behind a shorter key.
#[tactic(auto, using(crate::proofs::Ranking::first_padded))]
fn first_rank(key: &[u8]) -> u64
    ensures { result ≡ rank 8 key.now }
{
    if 8 <= key.len() {
        return rank_at(key, 0);
    }
    let mut eight = [0; 8];
    buffers::copy_in(&mut eight, 0, key);
    rank_at(&eight, 0)
}

// The eight bytes behind them, the same way.
#[tactic(auto, using(crate::proofs::Heads::second_none, crate::proofs::Heads::second_rest))]
fn second_rank(key: &[u8]) -> u64
    ensures { result ≡ rank 8 (drop 8 key.now) }
{
    if 16 <= key.len() {
        rank_at(key, 8)
    } else if key.len() <= 8 {
        0
    } else {
        first_rank(&key[8..])
    }
}

// Two keys whose first sixteen bytes, or all of the shorter, are the same: eight bytes at once, the last eight from where they fit.
// By the slices' own `cmp` a search among a thousand keys of 24 bytes that begin alike takes 1,126 instructions.
#[tactic(auto, using(crate::proofs::Comparing::all_shared, crate::proofs::Comparing::words_start, crate::proofs::Comparing::words_order, crate::proofs::Comparing::words_again))]
fn compare_rest(a: &[u8], b: &[u8]) -> Ordering
    requires { SharesHead a.now b.now }
    ensures { is_order result a.now b.now ≡ true }
{
    let n = a.len().min(b.len());
    if n <= 16 {
        return a.len().cmp(&b.len());
    }
    let mut i = 16;
    while i < n - 8 {
        let x = rank_at(a, i);
        let y = rank_at(b, i);
        if x != y {
            return x.cmp(&y);
        }
        i += 8;
    }
    let x = rank_at(a, n - 8);
    let y = rank_at(b, n - 8);
    x.cmp(&y).then(a.len().cmp(&b.len()))
}

// Two keys, as slices compare: kept out of the search's loop, which few rows leave this way.
#[inline(never)]
#[tactic(auto, using(crate::proofs::Comparing::order_by))]
fn compare_short(a: &[u8], b: &[u8]) -> Ordering
    ensures { is_order result a.now b.now ≡ true }
{
    a.cmp(&b)
}

impl<'a> Head<'a> {
    pub fn new(key: &'a [u8]) -> Head<'a>
        ensures { result.key.now ≡ key.now }
    {
        Head {
            key,
            first: first_rank(key),
            second: second_rank(key),
            need: (key.len() + 1).min(16),
        }
    }

    // How the key in a row's 64 bytes stands to the key.
    #[inline(always)]
    pub fn order(&self, block: &[u8]) -> Ordering
        requires { (64 ≤ length block.now) × (get_or block.now 0 0 ≤ 63) }
        ensures { is_order result (key_in block.now) self.now.key.now ≡ true }
    {
        let x = rank_at(block, 1);
        let y = rank_at(block, 9);
        match x.cmp(&self.first).then(y.cmp(&self.second)) {
            Ordering::Less => Ordering::Less,
            Ordering::Greater if self.need <= usize::from(block[0]) => Ordering::Greater,
            Ordering::Equal => compare_rest(blocks::key_in(block), self.key),
            Ordering::Greater => compare_short(blocks::key_in(block), self.key),
        }
    }
}
