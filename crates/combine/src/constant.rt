// Rows under a rule whose factors are the same all along: because they do not go by alpha, and so are 0 or 255 each, or
// because the source has one alpha and the rule looks at no other.
ghost use Rattle.std.specs.Prelude.{◌≡◌, true, ℕ, ◌≤◌, ◌<◌, length, get_or};
ghost use Rattle.pixel.specs.Blending.{blended_channel};
ghost use Rattle.pixel.specs.Rules.{blend_mode_factors};
ghost use Rattle.pixel.specs.declared.blend.BlendMode.TheVariants.{Add};
ghost use Rattle.lanes.specs.Lanes.{Done};
ghost use Rattle.plan.specs.Blend.{alpha_at, blend_at};

use lanes::bytes::{clear, copy};
use plan::channels::{held_sum, mix_one};
use plan::{Plan, factor};

pub fn add_bytes(d: &mut [u8], s: &[u8], a: usize, n: usize)
    requires { (a ≤ n) × ((n ≤ length d.old) × (n ≤ length s.now)) }
    ensures { Done (blend_at (blend_mode_factors Add) s.now d.old) d.old d.new a n }
{
    for j in a..n {
        d[j] = held_sum(s[j], d[j]);
    }
}

// The row d, blended with the row s: added up, copied, left as it is, or cleared.
pub fn constant_row(d: &mut [u8], s: &[u8], p: Plan)
    requires { (length d.old ≤ length s.now) × (p.constant ≡ true) }
    ensures { Done (blend_at p.rule s.now d.old) d.old d.new 0 (length d.old) }
{
    let n = d.len();
    let fs = p.source;
    let fd = p.destination;
    if fs.flip == 255 {
        if fd.flip == 255 {
            add_bytes(d, s, 0, n);
            return;
        }
        copy(d, s);
        return;
    }
    if fd.flip == 255 {
        return;
    }
    clear(d, 0, n);
}

// The row d, mixed with the row s by two factors.
fn mix_bytes(d: &mut [u8], s: &[u8], fs: u16, fd: u16)
    requires { (length d.old ≤ length s.now) × ((fs ≤ 255) × (fd ≤ 255)) }
    ensures { Done (λ j. blended_channel (get_or s.now j 0) fs (get_or d.old j 0) fd) d.old d.new 0 (length d.old) }
{
    for j in 0..d.len() {
        d[j] = mix_one(s[j], fs, d[j], fd);
    }
}

// The row d, mixed with the row s by two factors. Factors that only copy (255 and 0) or only leave (0 and 255) need no product: under NONE those are the two
// ends of a fade.
fn row_by_factors(d: &mut [u8], s: &[u8], fs: u16, fd: u16)
    requires { (length d.old ≤ length s.now) × ((fs ≤ 255) × (fd ≤ 255)) }
    ensures { Done (λ j. blended_channel (get_or s.now j 0) fs (get_or d.old j 0) fd) d.old d.new 0 (length d.old) }
{
    if (fs == 255) & (fd == 0) {
        copy(d, s);
        return;
    }
    if (fs == 0) & (fd == 255) {
        return;
    }
    mix_bytes(d, s, fs, fd);
}

// The row d, blended with a row s of one alpha, under a rule that does not go by the alphas of d. So the factors are found with 0 in their
// place.
pub fn constant_alpha_row(d: &mut [u8], s: &[u8], alpha: u8, p: Plan)
    requires { ((length d.old ≤ length s.now) × ((j : ℕ) → j < length d.old → alpha_at s.now j ≡ alpha))
        × ((p.source.destination ≡ 0) × (p.destination.destination ≡ 0)) }
    ensures { Done (blend_at p.rule s.now d.old) d.old d.new 0 (length d.old) }
{
    let fs = p.source;
    let fd = p.destination;
    let a = alpha as u16;
    row_by_factors(d, s, factor(fs, a, 0), factor(fd, a, 0));
}
