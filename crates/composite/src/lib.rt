// A row of colours blended with a row of colours, in place: a premultiplied source divided, alpha modes, then the rule.
#![tactic(auto)]

pub mod alpha_modes;

ghost use Rattle.std.specs.Prelude.{◌≡◌, ◌%◌, ◌≤◌, length};
ghost use Rattle.pixel.specs.declared.format.Format.TheVariants.{Argb8888};
ghost use Rattle.lanes.specs.Lanes.{Done};
ghost use Rattle.plan.specs.Blend.{blend_at};
ghost use Rattle.row_pixels.specs.Row.{colour_in, row_stored};
ghost use Rattle.row_pixels.specs.Composite.{composite};
ghost use Rattle.composite.specs.Buffer.{Mixes, HasItsAlphas, has_constant_alpha};

use crate::alpha_modes::alpha_row;
use combine::blend_row;
use combine::constant::constant_alpha_row;
use pixel::AlphaMode;
use plan::Plan;
use register::{Alpha, Blending};
use unpremultiply::prepare_row;

// Whether all pixels of a source go by the same two factors, because it has one alpha and the rule looks at no other. Rules that have rows of their own
// are left to those.
fn has_constant_alpha(mode: AlphaMode, p: Plan) -> bool
    ensures { result ≡ has_constant_alpha mode p }
{
    let fs = p.source;
    let fd = p.destination;
    match mode {
        AlphaMode::Global => {
            (fs.destination == 0) & (fd.destination == 0) & !p.over & !p.constant
        }
        AlphaMode::Pixel | AlphaMode::Mixed => false,
    }
}

// The row d, blended with a row s that has the alphas of its mode.
fn blend_prepared(d: &mut [u8], s: &[u8], source: Alpha, p: Plan)
    requires { ((length d.old ≤ length s.now) × (length d.old % 4 ≡ 0)) × HasItsAlphas source s.now (length d.old) }
    ensures { Done (blend_at p.rule s.now d.old) d.old d.new 0 (length d.old) }
{
    let mode = source.mode;
    if has_constant_alpha(mode, p) {
        constant_alpha_row(d, s, source.global, p);
        return;
    }
    blend_row(d, s, p);
}

pub fn mix_row(
    d: &mut [u8],
    s: &mut [u8],
    width: usize,
    blending: Blending,
    p: Plan,
    source: Alpha,
    destination: Alpha,
)
    requires { Mixes d.old s.old width blending p }
    ensures { d.new ≡ row_stored Argb8888 (λ x. composite blending source destination (colour_in s.old x) (colour_in d.old x)) d.old }
{
    let sm = source.mode;
    let dm = destination.mode;
    prepare_row(s, width, blending.premultiplied);
    alpha_row(s, width, sm, source.global);
    alpha_row(d, width, dm, destination.global);
    blend_prepared(d, s, source, p);
}
