//! How many of the cells around a cell pass a test.
ghost use Rattle.std.specs.Prelude.{◌≤◌, length};
ghost use Rattle.grid_near.specs.NearCounts.{CallableNear, CountsNear};

use crate::neighbors::Neighbors;

/// Returns for how many of these cells, which are at most eight, the closure returns `true`.
pub fn count_near<T, F: Fn(&T) -> bool>(near: Neighbors<'_, T>, test: F) -> usize
    requires most { length near ≤ 8 }
    requires callable { CallableNear F.pre test near }
    ensures count { CountsNear F.post test near.entry result }
    ensures at_most { result ≤ length near.entry }
{
    let mut count = 0;
    for (_, cell) in near {
        if test(cell) {
            count += 1;
        }
    }
    count
}
