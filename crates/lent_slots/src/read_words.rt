// A record's words out of a slot of a table of words.
ghost use Rattle.std.specs.Prelude.{◌+◌, ◌*◌, ◌≤◌, ◌≡◌, length, take, drop};

// The record in a slot of a table of words.
pub fn words_at(table: &[i32], slot: usize) -> [i32; 16]
    requires { slot * 16 + 16 ≤ length table.now }
    ensures { result ≡ take 16 (drop (slot * 16) table.now) }
{
    let base = slot * 16;
    let mut w = [0; 16];
    w.copy_from_slice(&table[base..base + 16]);
    w
}
