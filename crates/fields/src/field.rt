// Values that are stored in a fixed number of bytes, read from the front of bytes.
ghost use Rattle.std.specs.Prelude.{◌≡◌, ℕ, List};
ghost use Rattle.fields.specs.Behind.{ReadsBehind, byte_behind, half_behind, int_behind, long_behind, word_behind};
ghost use Rattle.fields.specs.Bytes.{byte_at, half_at, int_at, long_at, seen, taken, word_at};

// A value that is stored in a fixed number of bytes, little-endian.
pub trait Field: Copy {
    // How many bytes it takes.
    ghost width: { ℕ };

    // What the bytes from a place on stand for.
    ghost value: { List ℕ → ℕ → Self };

    // The value that the first bytes stand for, and the bytes after them; nothing where there are fewer.
    fn read(bytes: &[u8]) -> Option<(Self, &[u8])>
        ensures { seen result ≡ taken width (value bytes.now 0) bytes.now };

    // A place behind the first n bytes is n places further on in the whole.
    ghost behind: { ReadsBehind value };
}

impl Field for u8 {
    ghost width = { 1 };

    ghost value = { byte_at };

    ghost behind = { byte_behind };

    fn read(bytes: &[u8]) -> Option<(u8, &[u8])> {
        let (byte, rest) = bytes.split_first()?;
        Some((*byte, rest))
    }
}

impl Field for u16 {
    ghost width = { 2 };

    ghost value = { half_at };

    ghost behind = { half_behind };

    fn read(bytes: &[u8]) -> Option<(u16, &[u8])> {
        let (field, rest) = bytes.split_first_chunk::<2>()?;
        Some((u16::from_le_bytes(*field), rest))
    }
}

impl Field for u32 {
    ghost width = { 4 };

    ghost value = { word_at };

    ghost behind = { word_behind };

    fn read(bytes: &[u8]) -> Option<(u32, &[u8])> {
        let (field, rest) = bytes.split_first_chunk::<4>()?;
        Some((u32::from_le_bytes(*field), rest))
    }
}

impl Field for u64 {
    ghost width = { 8 };

    ghost value = { long_at };

    ghost behind = { long_behind };

    fn read(bytes: &[u8]) -> Option<(u64, &[u8])> {
        let (field, rest) = bytes.split_first_chunk::<8>()?;
        Some((u64::from_le_bytes(*field), rest))
    }
}

impl Field for i32 {
    ghost width = { 4 };

    ghost value = { int_at };

    ghost behind = { int_behind };

    fn read(bytes: &[u8]) -> Option<(i32, &[u8])> {
        let (field, rest) = bytes.split_first_chunk::<4>()?;
        Some((i32::from_le_bytes(*field), rest))
    }
}
