// A record's words out of a slot of a table of bytes.
ghost use Rattle.std.specs.Prelude.{◌+◌, ◌*◌, ◌≤◌, ◌≡◌, length};
ghost use Rattle.std.specs.Int.{w32};
ghost use Rattle.std.proofs.Common.{to_z};
ghost use Rattle.lent_slots.specs.Slots as slots;

// The number in four bytes, the lowest first.
#[tactic(auto, unfolding(crate::specs::Slots::number_from))]
pub fn number_in(b: &[u8], p: usize) -> u32
    requires { p + 4 ≤ length b.now }
    ensures { result ≡ slots.number_from b.now p }
{
    u32::from_le_bytes([b[p], b[p + 1], b[p + 2], b[p + 3]])
}

// The record in a slot of a table of bytes.
pub fn bytes_at(table: &[u8], slot: usize) -> [i32; 16]
    requires { slot * 64 + 64 ≤ length table.now }
    ensures { result ≡ slots.words_from 16 table.now (slot * 64) }
{
    let base = slot * 64;
    // By place, as `words_from` is.
    let mut w = [0i32; 16];
    for i in 0..16 {
        w[i] = number_in(table, base + i * 4).cast_signed();
    }
    w
}
