// A key or a prefix in 64 bytes: its length, its bytes, zeros. The definitions are in specs/.
#![tactic(auto)]

ghost use Rattle.std.specs.Prelude.{◌≡◌, ◌&&◌, ◌+◌, ◌≤◌, length, get_or, drop};
ghost use Rattle.buffers.specs.Lists.{all};
ghost use Rattle.buffers.specs.Writes.{Wrote};
ghost use Rattle.text.specs.Keys.{is_key, is_prefix};
ghost use Rattle.blocks.specs.Blocks.{block_of, key_in, is_block};
ghost use Rattle.blocks.specs.Places.{place_fits, places_fit, is_zero};

// A block is lent as a slice here: its callers cut it out of the key bytes, and would turn each into an array.
// The key in the first 64 bytes of a block.
pub fn key_in(block: &[u8]) -> &[u8]
    requires { (64 ≤ length block.now) × (get_or block.now 0 0 ≤ 63) }
    ensures { result.now ≡ key_in block.now }
{
    let end = block[0] as usize + 1;
    &block[1..end]
}

// Writes the 64 bytes of a key from `at` on, and returns the place after them.
pub fn put_block(out: &mut [u8], at: usize, key: &[u8]) -> usize
    requires { (at + 64 ≤ length out.old) × (length key.now ≤ 63) }
    ensures { Wrote out.old at (block_of key.now) 64 out.new result }
{
    let start = buffers::copy_in(out, at, &[key.len() as u8]);
    let end = buffers::copy_in(out, start, key);
    buffers::fill_in(out, end, 63 - key.len(), 0)
}

// Whether byte j of the 64 is right behind a first byte n: zero after place n and nowhere else, or a byte of a key.
fn place_fits(n: u8, j: u8, x: u8) -> bool
    ensures { result ≡ place_fits n j x }
{
    (j == 0) | (((n < j) == (x == 0)) & ((x == 0) | ((0x21 <= x) & (x <= 0x7E))))
}

// Whether the bytes before place `to` are right. The loop is compiled to vector code: no way out, and beside the index a counter as wide as a byte. By `for` over the places a key of 26 bytes takes 126 instructions in place of 65.
fn places_fit(b: &[u8], to: usize) -> bool
    requires { (length b.now ≡ 64) × (to ≤ 64) }
    ensures { places_fit (get_or b.now 0 0) 0 b.now ≡ result && places_fit (get_or b.now 0 0) to (drop to b.now) }
{
    let n = b[0];
    let mut ok = true;
    let mut j = 0u8;
    let mut i = 0;
    while i < to {
        ok = ok & place_fits(n, j, b[i]);
        i += 1;
        j += 1;
    }
    ok
}

// Whether the second half of 64 bytes is zero. The loop has no way out, for the same reason; `==` on the half takes twice its instructions.
fn rest_is_zero(b: &[u8]) -> bool
    requires { length b.now ≡ 64 }
    ensures { result ≡ all is_zero (drop 32 b.now) }
{
    let mut ok = true;
    for i in 32..64 {
        ok = ok & (b[i] == 0);
    }
    ok
}

// Whether 64 bytes hold a prefix. Behind a short one the second half is zero, which is a cheaper test.
pub fn is_prefix_block(b: &[u8]) -> bool
    requires { length b.now ≡ 64 }
    ensures { result ≡ is_block b.now && is_prefix (key_in b.now) }
{
    if b[0] < 32 {
        places_fit(b, 32) & rest_is_zero(b)
    } else {
        b[0] < 64 && places_fit(b, 64)
    }
}

// Whether 64 bytes hold a key.
#[tactic(auto, using(crate::proofs::Places::key_block))]
pub fn is_key_block(b: &[u8]) -> bool
    requires { length b.now ≡ 64 }
    ensures { result ≡ is_block b.now && is_key (key_in b.now) }
{
    (1 <= b[0]) & is_prefix_block(b)
}
