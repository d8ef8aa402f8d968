ghost use Rattle.std.specs.Prelude.{◌≡◌, ◌≤◌, length};

use crate::shape::Span;

// A box: one closed span for each of its n variables, in the first n of eight places.
// Boxes are copied between lent places, so a box is flat: its spans lie in an array with their number beside them.
#[derive(Clone, Copy, Debug, PartialEq, Eq)]
pub struct Region {
    pub n: usize,
    pub spans: [Span; 8],
    ghost some: { 1 ≤ n },
    ghost few: { n ≤ 8 },
    ghost whole: { length spans ≡ 8 },
}
