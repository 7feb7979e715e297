//! Tables of rows.

use std::alloc::Global;

/// Whether each row is as it should be.
pub fn each<T: Copy, F: Fn(Global, T) -> bool>(alloc: Global, rows: &[T], is_so: F) -> bool
    requires { F.IsAlwaysCallable is_so }
{
    for &row in rows {
        if !is_so(alloc, row) {
            return false;
        }
    }
    true
}
