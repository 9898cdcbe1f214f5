// A word's four bytes in a table of bytes.
ghost use Rattle.std.specs.Prelude.{◌+◌, ◌≤◌, ◌≡◌, length};
ghost use Rattle.std.proofs.lemmas.List.Edits.{sets};
ghost use Rattle.lent_slots.specs.Bytes.{little_endian};

// Four bytes, the lowest first.
#[tactic(auto, unfolding(crate::specs::Bytes::little_endian))]
pub fn put_word(table: &mut [u8], at: usize, n: u32)
    requires { at + 4 ≤ length table.old }
    ensures { table.new ≡ sets table.old at (little_endian n) }
{
    table[at..at + 4].copy_from_slice(&n.to_le_bytes());
}
