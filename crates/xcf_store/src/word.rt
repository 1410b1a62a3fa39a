// Words read at a place.
ghost use Rattle.std.specs.Prelude.{◌≡◌, ◌+◌, ◌≤◌, length};
ghost use Rattle.xcf_store.specs.Word.{part, big_endian};

pub fn word_at(file: &[u8], at: usize) -> u32
    requires { at + 4 ≤ length file.now }
    ensures { result ≡ big_endian 0 (part file.now at 4) }
{
    u32::from_be_bytes([file[at], file[at + 1], file[at + 2], file[at + 3]])
}
