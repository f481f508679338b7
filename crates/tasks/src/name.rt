// The name of a task.
ghost use Rattle.std.specs.Prelude.{◌≡◌, ◌≤◌, true, take};
ghost use Rattle.tasks.specs.Bytes.{every, name_byte};

// 1 to 8 letters, digits or underscores: the first `len` bytes. What stands behind them does not count.
// An array and its length, since lines and tables are fixed memory, copied whole, with no heap. A generic type
// for this array and a table's would be longer than both: with the rule on its length, Copy is not derived.
#[derive(Clone, Copy)]
pub struct Name {
    pub(crate) bytes: [u8; 8],
    pub(crate) len: usize,
    ghost size: { (1 ≤ len) × (len ≤ 8) },
    ghost letters: { every name_byte (take len bytes) ≡ true },
}
