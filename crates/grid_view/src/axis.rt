//! One direction of a view: how many lines there are, how far apart they are, and whether they come from the last.
ghost use Rattle.std.specs.Prelude.{◌≡◌, ℕ, ◌+◌, ◌-◌, ◌*◌, ◌^◌, ◌<◌, ◌≤◌, IsTrue};
ghost use Rattle.grid_view.specs.Prelude.{counted, offset, turned, cut, first_of, crossed, nearest_below};
ghost use Rattle.grid_view.specs.View.{IsStepped};

// The lines of a view in one direction.
#[derive(Clone, Copy)]
pub(crate) struct ViewAxis {
    pub(crate) count: usize,
    pub(crate) stride: usize,
    pub(crate) backwards: bool,
}

impl ViewAxis {
    // Returns the index of line `k` in the storage.
    pub(crate) fn number(self, k: usize) -> usize
        requires { k < self.count }
        ensures number { result ≡ counted self.backwards self.count k }
        ensures within { result < self.count }
    {
        if self.backwards {
            self.count - 1 - k
        } else {
            k
        }
    }

    // Returns the index of the line that is nearest to a signed index, or 0 where there are no lines.
    pub(crate) fn nearest(self, at: isize) -> usize
        ensures nearest { result ≡ nearest_below at self.count }
        ensures within { 0 < self.count → result < self.count }
    {
        if at < 0 {
            0
        } else {
            (at as usize).min(self.count.saturating_sub(1))
        }
    }

    // Returns the index in the storage of the first, there, of the `count` lines from line `at` on.
    pub(crate) fn first_of(self, at: usize, count: usize) -> usize
        requires { at + count ≤ self.count }
        ensures { result ≡ first_of self.backwards self.count at count }
    {
        if self.backwards {
            self.count - at - count
        } else {
            at
        }
    }

    // Returns whether each line is `distance` places after the one before. One line alone is.
    pub(crate) fn steps_by(self, distance: usize) -> bool
        ensures steps { IsTrue result → (k : ℕ) → k < self.count → offset self k ≡ k * distance }
        ensures alone { self.count ≤ 1 → IsTrue result }
    {
        self.count <= 1 || (self.stride == distance && !self.backwards)
    }

    // Returns the place of the first line, and how far it is to the next: a step back is one modulo 2^64.
    pub(crate) fn steps(self) -> (usize, usize)
        requires some { 0 < self.count }
        requires fits { (self.count - 1) * self.stride < 2 ^ 64 }
        ensures steps { IsStepped self result.0 result.1 }
        ensures within { result.0 ≤ (self.count - 1) * self.stride }
    {
        if self.backwards {
            ((self.count - 1) * self.stride, self.stride.wrapping_neg())
        } else {
            (0, self.stride)
        }
    }

    // Returns the axis whose lines come in the reversed order, or in the same.
    pub(crate) fn turned(self, reversed: bool) -> ViewAxis
        ensures { result ≡ turned self reversed }
    {
        ViewAxis {
            count: self.count,
            stride: self.stride,
            backwards: self.backwards ^ reversed,
        }
    }

    // Returns the axis with `count` lines.
    pub(crate) fn cut(self, count: usize) -> ViewAxis
        ensures { result ≡ cut self count }
    {
        ViewAxis {
            count,
            stride: self.stride,
            backwards: self.backwards,
        }
    }
}

// Returns the axes of a view whose rows are the columns, or not.
pub(crate) fn crossed(transposes: bool, rows: ViewAxis, cols: ViewAxis) -> (ViewAxis, ViewAxis)
    ensures { result ≡ crossed transposes rows cols }
{
    if transposes {
        (cols, rows)
    } else {
        (rows, cols)
    }
}
