// Four pixels of a row of ARGB8888 bytes: whether all their alphas are 255 or all 0, which their sum shows, and whether all their bytes are 0.
ghost use Rattle.std.specs.Prelude.{◌≡◌, ℕ, ◌+◌, ◌*◌, ◌≤◌, ◌<◌, length, get_or, eqb};
ghost use Rattle.lanes.specs.Alphas.{alpha_sum};

// The alphas of four pixels, added up.
pub fn alphas(s: &[u8], o: usize) -> u16
    requires { o + 16 ≤ length s.now }
    ensures { result ≡ alpha_sum s.now o }
{
    s[o + 3] as u16 + s[o + 7] as u16 + s[o + 11] as u16 + s[o + 15] as u16
}

// Whether a sum of four alphas is that of opaque pixels. It takes the sum, so that a turn of a loop adds it up once and goes three ways by it.
pub fn is_opaque(sum: u16) -> bool
    ensures { result ≡ eqb sum (4 * 255) }
{
    sum == 1020
}

fn get4(s: &[u8], o: usize) -> u64
    requires { o + 4 ≤ length s.now }
    ensures { (result ≡ get_or s.now o 0 + 256 * get_or s.now (o + 1) 0 + 65536 * get_or s.now (o + 2) 0 + 16777216 * get_or s.now (o + 3) 0) × (result ≤ 4294967295) }
{
    s[o] as u64 + s[o + 1] as u64 * 256 + s[o + 2] as u64 * 65536 + s[o + 3] as u64 * 16777216
}

// Zero only where all sixteen bytes are.
pub fn words(s: &[u8], o: usize) -> u64
    requires { o + 16 ≤ length s.now }
    ensures { result ≡ 0 → (j : ℕ) → o ≤ j → j < o + 16 → get_or s.now j 0 ≡ 0 }
{
    get4(s, o) + get4(s, o + 4) + get4(s, o + 8) + get4(s, o + 12)
}
