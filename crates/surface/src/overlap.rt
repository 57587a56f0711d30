// Whether two surfaces share a byte.
ghost use Rattle.std.specs.Prelude.{◌≡◌};
ghost use Rattle.surface.specs.Overlap.{rows_overlap, surfaces_overlap, StartsNoLater};

use crate::Surface;
use range::Range;

// Whether a row of a surface and a row of a later one share a byte. The later one has the same stride, so that its further
// rows lie as its first does, only further down: that one and a single row of the other surface decide it.
fn shares_rows(first: Surface, later: Surface) -> bool
    requires { StartsNoLater first later }
    ensures { result ≡ rows_overlap first later }
{
    let start = first.address as usize;
    let end = start + first.row_length();
    let from = later.address as usize;
    let to = from + later.row_length();
    let stride = first.stride as usize;
    // the first row that ends past the later one's first byte; 0 where all rows lie at one place
    let y = if from < end {
        0
    } else if stride == 0 {
        0
    } else {
        (from - end) / stride + 1
    };
    let down = y * stride;
    let row = Range {
        start: start + down,
        end: end + down,
    };
    (y < first.height as usize)
        & (0 < later.height)
        & row.overlaps(Range {
            start: from,
            end: to,
        })
}

// Whether two surfaces overlap: with equal strides some byte lies in rows of both, else in both spans.
#[tactic(auto, unfolding(crate::specs::Overlap::surfaces_overlap))]
pub fn surfaces_overlap(a: Surface, b: Surface) -> bool
    ensures { result ≡ surfaces_overlap a b }
{
    if a.stride != b.stride {
        return a.overlaps(b);
    }
    if a.address <= b.address {
        return shares_rows(a, b);
    }
    shares_rows(b, a)
}
