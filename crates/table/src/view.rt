// A table's bytes with its counts.
ghost use Rattle.std.specs.Prelude.{◌≡◌, ◌+◌, ◌*◌, ◌≤◌, length};

// The bytes of a table whose header has been read, so that they are as long as its counts say.
#[derive(Drop)]
pub struct Table<'a> {
    pub bytes: &'a [u8],
    pub functions: usize,
    pub nodes: usize,
    ghost long: { length bytes.now ≡ 3 + 6 * functions + 3 * nodes },
    ghost few: { functions ≤ 32 },
    ghost short: { nodes ≤ 8192 },
}
