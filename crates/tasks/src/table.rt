// A task table.
ghost use Rattle.std.specs.Prelude.{◌≡◌, ℕ, suc, ◌<◌, ◌≤◌, [], ◌≢◌, slice_index, slice_index_or};
ghost use Rattle.tasks.specs.Lines.{names, periods};

use crate::line::Line;

// At most 32 lines, the first `len` of the array; line 1 has the highest priority. The periods never fall from
// one line to the next, and no two names are the same bytes. What stands behind the lines does not count.
// An array and its length, since a table is fixed memory, copied whole into a controller, with no heap.
#[derive(Clone, Copy)]
pub struct Table {
    pub(crate) lines: [Line; 32],
    pub(crate) len: usize,
    ghost few: { len ≤ 32 },
    ghost rising: { (i : ℕ) → suc i < len → slice_index (periods lines) i ≤ slice_index (periods lines) (suc i) },
    ghost apart: { (i j : ℕ) → i < j → j < len → slice_index_or (names lines) i [] ≢ slice_index_or (names lines) j [] },
}
