ghost use Rattle.std.specs.Prelude.{◌≡◌, ◌<◌, Decides};
ghost use Rattle.span.specs.Regions.{at, put, with_span, lower_half, upper_half, middles, boxed};

use crate::region::Region;
use crate::shape::Span;

// [0, 0], which stands in a place that no variable has.
const NOUGHT: Span = Span { lo: 0, hi: 0 };

impl Region {
    /// The box of a list of spans: none if it is empty or has more than eight. The spare places are [0, 0].
    pub fn new(spans: &[Span]) -> Option<Region>
        ensures { result ≡ boxed spans.now }
    {
        let n = spans.len();
        if n < 1 || n > 8 {
            return None;
        }
        let mut all = [NOUGHT; 8];
        all[..n].copy_from_slice(spans);
        Some(Region { n, spans: all })
    }

    /// The span of variable j, and [0, 0] past the eight places.
    pub fn span(&self, j: usize) -> Span
        ensures { result ≡ at self.now j }
    {
        self.spans.get(j).copied().unwrap_or(NOUGHT)
    }

    // The box with s at place j.
    fn put(&self, j: usize, s: Span) -> Region
        requires { j < 8 }
        ensures { result ≡ put self.now j s }
    {
        let mut spans = self.spans;
        spans[j] = s;
        Region { n: self.n, spans }
    }

    /// The box with s for the span of variable j: unchanged where it has no variable j.
    pub fn with_span(&self, j: usize, s: Span) -> Region
        ensures { result ≡ with_span self.now j s }
    {
        if j < self.n { self.put(j, s) } else { *self }
    }

    /// The lower and the upper half at variable j: the box twice where it has no variable j.
    pub fn split(&self, j: usize) -> (Region, Region)
        ensures { result ≡ (lower_half j self.now, upper_half j self.now) }
    {
        let (low, high) = self.span(j).halves();
        (self.with_span(j, low), self.with_span(j, high))
    }

    /// The lower middles of the eight places.
    pub fn middles(&self) -> [i32; 8]
        ensures { result ≡ middles self.now }
    {
        self.spans.map(|s| s.middle())
    }

    /// Whether two boxes have the same number of variables and the same spans.
    pub fn same(&self, other: &Region) -> bool
        ensures { Decides result (self.now ≡ other.now) }
    {
        self == other
    }
}
