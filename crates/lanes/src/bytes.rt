// Rows of bytes as such: copied, set to zero, and copied inside one slice.
ghost use Rattle.std.specs.Prelude.{◌≡◌, ◌+◌, ◌*◌, ◌%◌, ◌≤◌, length, get_or};
ghost use Rattle.lanes.specs.Lanes.{Done};
ghost use Rattle.lanes.specs.Apart.{Apart, moved_byte};

// The N bytes at o as they are, by way of an array: a number of bytes that is known becomes loads and stores, where `copy_from_slice` of a row is a call of
// `memmove`.
pub fn copy_chunk<const N: usize>(d: &mut [u8], s: &[u8], o: usize)
    requires { (o + N ≤ length d.old) × (o + N ≤ length s.now) }
    ensures { Done (λ j. get_or s.now j 0) d.old d.new o (o + N) }
{
    let mut block = [0u8; N];
    block.copy_from_slice(&s[o..o + N]);
    d[o..o + N].copy_from_slice(&block);
}

// Chunks of N bytes, the first of them at a.
fn copy_chunks<const N: usize>(d: &mut [u8], s: &[u8], a: usize, count: usize)
    requires { (a + count * N ≤ length d.old) × (a + count * N ≤ length s.now) }
    ensures { Done (λ j. get_or s.now j 0) d.old d.new a (a + count * N) }
{
    for k in 0..count {
        copy_chunk::<N>(d, s, a + k * N);
    }
}

// The bytes from byte a to byte n.
fn copy_rest(d: &mut [u8], s: &[u8], a: usize, n: usize)
    requires { (a ≤ n) × ((n ≤ length d.old) × (n ≤ length s.now)) }
    ensures { Done (λ j. get_or s.now j 0) d.old d.new a n }
{
    for j in a..n {
        d[j] = s[j];
    }
}

// Bytes as they are.
pub fn copy(d: &mut [u8], s: &[u8])
    requires { length d.old ≤ length s.now }
    ensures { Done (λ j. get_or s.now j 0) d.old d.new 0 (length d.old) }
{
    let n = d.len();
    let wide = n / 64;
    let narrow = n % 64 / 16;
    copy_chunks::<64>(d, s, 0, wide);
    copy_chunks::<16>(d, s, wide * 64, narrow);
    copy_rest(d, s, wide * 64 + narrow * 16, n);
}

// Zeros, from byte a to byte n.
pub fn clear(d: &mut [u8], a: usize, n: usize)
    requires { (a ≤ n) × (n ≤ length d.old) }
    ensures { Done (λ j. 0) d.old d.new a n }
{
    d[a..n].fill(0);
}

// Sixteen bytes inside one slice: those from `from` on over those from `to` on.
#[inline(always)]
pub fn copy_block(memory: &mut [u8], to: usize, from: usize)
    requires { (to + 16 ≤ length memory.old) × (from + 16 ≤ length memory.old) }
    ensures { Done (moved_byte memory.old to from) memory.old memory.new to (to + 16) }
{
    let mut block = [0u8; 16];
    block.copy_from_slice(&memory[from..from + 16]);
    memory[to..to + 16].copy_from_slice(&block);
}

// Blocks of sixteen bytes: n bytes in all.
// Kept (speed): of a `for` the compiler knows how often it goes round and makes turns of eight blocks, which a small picture's row is too short for.
#[inline(always)]
fn copy_blocks(memory: &mut [u8], to: usize, from: usize, n: usize)
    requires { Apart (length memory.old) to from n × (n % 16 ≡ 0) }
    ensures { Done (moved_byte memory.old to from) memory.old memory.new to (to + n) }
{
    let mut j = 0;
    while j < n {
        copy_block(memory, to + j, from + j);
        j += 16;
    }
}

// The bytes from the a-th to the n-th.
#[inline(always)]
fn copy_bytes(memory: &mut [u8], to: usize, from: usize, a: usize, n: usize)
    requires { Apart (length memory.old) to from n × (a ≤ n) }
    ensures { Done (moved_byte memory.old to from) memory.old memory.new (to + a) (to + n) }
{
    for j in a..n {
        memory[to + j] = memory[from + j];
    }
}

// Copies the n bytes from `from` on over those from `to` on. The two parts of memory do not meet. The slice is not split, and no function is called: the rows
// of small pictures have few bytes.
#[inline(always)]
pub fn copy_within(memory: &mut [u8], to: usize, from: usize, n: usize)
    requires { Apart (length memory.old) to from n }
    ensures { Done (moved_byte memory.old to from) memory.old memory.new to (to + n) }
{
    let e = n / 16 * 16;
    copy_blocks(memory, to, from, e);
    copy_bytes(memory, to, from, e, n);
}
