// Bytes sixteen at a time, in eight lanes of 16 bits: what the compiler turns into one vector.
#![tactic(auto)]

pub mod bytes;
pub mod opacity;

ghost use Rattle.std.specs.Prelude.{◌≡◌, ℕ, ◌+◌, ◌*◌, ◌/◌, ◌%◌, ◌-◌, ◌≤◌, ◌<◌, length, get_or};
ghost use Rattle.lanes.specs.Lanes.{two, Done};

pub fn get2(s: &[u8], o: usize) -> u16
    requires { o + 2 ≤ length s.now }
    ensures { result ≡ two s.now o }
{
    s[o] as u16 + s[o + 1] as u16 * 256
}

pub fn put2(d: &mut [u8], o: usize, w: u16)
    requires { o + 2 ≤ length d.old }
    ensures low { get_or d.new o 0 ≡ w % 256 }
    ensures high { get_or d.new (o + 1) 0 ≡ w / 256 }
    ensures under { (j : ℕ) → j < o → get_or d.new j 0 ≡ get_or d.old j 0 }
    ensures past { (j : ℕ) → o + 2 ≤ j → get_or d.new j 0 ≡ get_or d.old j 0 }
{
    d[o] = (w % 256) as u8;
    d[o + 1] = (w / 256) as u8;
}

pub fn load8(s: &[u8], o: usize) -> [u16; 8]
    requires { o + 16 ≤ length s.now }
    ensures { (k : ℕ) → k < 8 → get_or result k 0 ≡ two s.now (o + k * 2) }
{
    let mut r = [0u16; 8];
    for i in 0..8 {
        r[i] = get2(s, o + i * 2);
    }
    r
}

pub fn store8(d: &mut [u8], o: usize, r: &[u16; 8])
    requires { o + 16 ≤ length d.old }
    ensures low { (k : ℕ) → k < 8 → get_or d.new (o + k * 2) 0 ≡ get_or r.now k 0 % 256 }
    ensures high { (k : ℕ) → k < 8 → get_or d.new (o + k * 2 + 1) 0 ≡ get_or r.now k 0 / 256 }
    ensures under { (j : ℕ) → j < o → get_or d.new j 0 ≡ get_or d.old j 0 }
    ensures past { (j : ℕ) → o + 16 ≤ j → get_or d.new j 0 ≡ get_or d.old j 0 }
{
    for i in 0..8 {
        put2(d, o + i * 2, r[i]);
    }
}

pub fn top(x: u16) -> u8
    ensures { result ≡ x / 256 }
{
    (x / 256) as u8
}

pub fn copy(d: &mut [u8], s: &[u8], o: usize)
    requires { (o + 16 ≤ length d.old) × (o + 16 ≤ length s.now) }
    ensures { Done (λ j. get_or s.now j 0) d.old d.new o (o + 16) }
{
    bytes::copy_chunk::<16>(d, s, o);
}

// The next sixteen bytes, where there are more. In this form a loop is not taken for one to be made of vectors as a whole.
pub fn step(o: usize, n: usize) -> usize
    requires { (o < n) × ((n - o) % 16 ≡ 0) }
    ensures { result ≡ o + 16 }
{
    if n - o < 16 { n } else { o + 16 }
}
