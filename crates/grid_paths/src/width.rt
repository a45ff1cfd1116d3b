//! The integers in which a search for the least costs counts: of 64 bits, or of 128 where these might not suffice.
ghost use Rattle.std.specs.Prelude.{◌≡◌, ◌<◌, Some, None, refl};
ghost use Rattle.std.specs.Ordering.{nat_cmp};
ghost use Rattle.grid_paths.specs.Width.{Reading, narrow, wide, value_of, number_of, position_of, limit_of, side_of};

// An integer that stands for a sum of costs or for none, and one that stands for a position.
pub(crate) trait Width: Ord + Copy + Drop {
    // What an integer stands for.
    ghost reads: { Reading Self };

    // The integer that stands for a sum.
    fn of_sum(sum: u128) -> Self
        requires { sum < limit_of reads }
        ensures value { value_of reads result ≡ sum }
        ensures number { number_of reads result ≡ Some sum };

    // The one that stands for none.
    fn of_none() -> Self
        ensures { number_of reads result ≡ None };

    // The value of the integer.
    fn value(self) -> u128
        ensures { result ≡ value_of reads self };

    // The sum that it stands for.
    fn sum(self) -> Option<u128>
        ensures { result ≡ number_of reads self };

    // The integer that stands for a position.
    fn of_position(at: (usize, usize)) -> Self
        requires row { at.0 < side_of reads }
        requires col { at.1 < side_of reads }
        ensures { position_of reads result ≡ at };

    // The position that it stands for.
    fn position(self) -> (usize, usize)
        ensures { result ≡ position_of reads self };

    // The integers are ordered by their values.
    ghost ordered: { (x y : Self) → Self.cmp x y ≡ nat_cmp (value_of reads x) (value_of reads y) };
}

impl Width for u64 {
    ghost reads = { narrow };

    ghost ordered = { λ x y. refl };

    #[inline(always)]
    fn of_sum(sum: u128) -> u64 {
        sum as u64
    }

    #[inline(always)]
    fn of_none() -> u64 {
        u64::MAX
    }

    #[inline(always)]
    fn value(self) -> u128 {
        self as u128
    }

    #[inline(always)]
    fn sum(self) -> Option<u128> {
        if self == u64::MAX {
            None
        } else {
            Some(self as u128)
        }
    }

    #[inline(always)]
    fn of_position(at: (usize, usize)) -> u64 {
        at.0 as u64 * 4294967296 + at.1 as u64
    }

    #[inline(always)]
    fn position(self) -> (usize, usize) {
        ((self / 4294967296) as usize, (self % 4294967296) as usize)
    }
}

impl Width for u128 {
    ghost reads = { wide };

    ghost ordered = { λ x y. refl };

    #[inline(always)]
    fn of_sum(sum: u128) -> u128 {
        sum
    }

    #[inline(always)]
    fn of_none() -> u128 {
        u128::MAX
    }

    #[inline(always)]
    fn value(self) -> u128 {
        self
    }

    #[inline(always)]
    fn sum(self) -> Option<u128> {
        if self == u128::MAX { None } else { Some(self) }
    }

    #[inline(always)]
    fn of_position(at: (usize, usize)) -> u128 {
        at.0 as u128 * 18446744073709551616 + at.1 as u128
    }

    #[inline(always)]
    fn position(self) -> (usize, usize) {
        (
            (self / 18446744073709551616) as usize,
            (self % 18446744073709551616) as usize,
        )
    }
}
