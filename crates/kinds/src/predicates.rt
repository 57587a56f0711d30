// What is asked of a task's parts to find the kind of its rows.
ghost use Rattle.std.specs.Prelude.{◌≡◌};
ghost use Rattle.kinds.specs.Predicates.{is_uniform, is_moved, is_in_place, is_colour, is_pixel_mode, is_src_over};

use pixel::{AlphaMode, BlendFactors, Format};
use register::{Alpha, Source, SourceMode};
use row_pixels::is_identity_row;
use surface::Surface;

// Whether all pixels of an output row have one colour.
pub fn is_uniform(source: Source) -> bool
    ensures { result ≡ is_uniform source.mode }
{
    matches!(source.mode, SourceMode::Colour | SourceMode::GradientY)
}

// Whether the source is one colour.
pub fn is_colour(source: Source) -> bool
    ensures { result ≡ is_colour source.mode }
{
    source.mode == SourceMode::Colour
}

// Whether pixels keep their own alphas.
pub fn is_pixel_alpha(alpha: Alpha) -> bool
    ensures { result ≡ is_pixel_mode alpha.mode }
{
    alpha.mode == AlphaMode::Pixel
}

// Whether a rule is SRC_OVER.
pub fn is_src_over(rule: BlendFactors) -> bool
    ensures { result ≡ is_src_over rule }
{
    rule == BlendFactors::SRC_OVER
}

// Whether the rows of a source can be taken byte by byte as they are.
#[tactic(auto, using(crate::proofs::Formats::equal_formats), unfolding(crate::specs::Predicates::is_moved))]
pub fn is_moved(source: Source, output: Surface) -> bool
    ensures { result ≡ is_moved source output }
{
    source.mode.is_buffer()
        && is_identity_row(source.transform)
        && source.surface.format == output.format
}

// Whether the output is its own destination, in the format of the buffers.
#[tactic(auto, using(crate::proofs::Formats::equal_formats), unfolding(crate::specs::Predicates::is_in_place))]
pub fn is_in_place(destination: Surface, output: Surface) -> bool
    ensures { result ≡ is_in_place destination output }
{
    destination.format == Format::Argb8888
        && output.format == Format::Argb8888
        && destination.address == output.address
        && destination.stride == output.stride
}
