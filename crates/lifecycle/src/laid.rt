// A rule laid flat, so that keys are compared with its prefix in place. The definitions are in specs/.
ghost use Rattle.std.specs.Prelude.{◌≡◌, ◌+◌, ◌-◌, ◌^◌, true};
ghost use Rattle.blocks.specs.Blocks.{key_in, is_block};
ghost use Rattle.search.specs.Keys.{rank};
ghost use Rattle.lifecycle.specs.Bounds.{Bounded};

// A rule that is set: the block of its prefix, its days, and the ranks of the first and the last key that the prefix may begin.
#[derive(Clone, Copy)]
pub struct LaidRule {
    pub prefix: [u8; 64],
    pub current: u64,
    pub noncurrent: u64,
    pub low: u64,
    pub high: u64,
    ghost block: { is_block prefix ≡ true },
    ghost bounded: { Bounded (key_in prefix) low high },
}

impl LaidRule {
    // A rule with the bounds of its prefix.
    pub fn new(prefix: [u8; 64], current: u64, noncurrent: u64) -> LaidRule
        requires { is_block prefix ≡ true }
        ensures { (result.prefix ≡ prefix) × (result.current ≡ current) × (result.noncurrent ≡ noncurrent) }
    {
        let low = search::rank_at(&prefix, 1);
        let high = low + span_behind(prefix[0] as usize);
        LaidRule {
            prefix,
            current,
            noncurrent,
            low,
            high,
        }
    }
}

// The largest number that the bytes behind a prefix of this length can spell, of the first eight.
fn span_behind(len: usize) -> u64
    ensures { result + 1 ≡ 256 ^ (8 - len) }
{
    let mut span = u64::MAX;
    for _ in 0..len {
        span /= 256;
    }
    span
}
