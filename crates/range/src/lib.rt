// Ranges of bytes, by their first byte and the one past their last.
#![tactic(auto)]

ghost use Rattle.std.specs.Prelude.{◌≡◌};
ghost use Rattle.range.specs.Range.{range_of, contained_in, overlaps};

#[derive(Clone, Copy, Debug, PartialEq, Eq)]
pub struct Range {
    pub start: usize,
    pub end: usize,
}

impl Range {
    // The range of `size` bytes from `start` on. Both are 32 bits wide, so that the end fits.
    pub fn new(start: u32, size: u32) -> Self
        ensures { result ≡ range_of start size }
    {
        Range {
            start: start as usize,
            end: (start as usize) + (size as usize),
        }
    }

    // Whether the range lies wholly in another.
    pub fn is_inside(self, other: Range) -> bool
        ensures { result ≡ contained_in self other }
    {
        (other.start <= self.start) & (self.end <= other.end)
    }

    // Whether some byte lies in both ranges.
    pub fn overlaps(self, other: Range) -> bool
        ensures { result ≡ overlaps self other }
    {
        self.start.max(other.start) < self.end.min(other.end)
    }
}
