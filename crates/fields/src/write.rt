// Fields of fixed widths, little-endian, written to a buffer.
ghost use Rattle.std.specs.Prelude.{◌≡◌, length, if◌then◌else◌, Some, None, nat_le};
ghost use Rattle.fields.specs.Bytes.{ints_bytes, over};

use byteorder::{ByteOrder, LittleEndian};

// Writes the fields one after another from the front of the buffer, four bytes each, and leaves the bytes after them.
// Answers how many bytes it wrote; where the buffer is shorter it writes nothing and answers nothing.
#[tactic(auto, using(crate::proofs::Written::length_ints, crate::proofs::Written::flat_ints))]
pub fn write_ints(buffer: &mut [u8], fields: &[i32]) -> Option<usize>
    ensures answer { result ≡ (if nat_le (length (ints_bytes fields.now)) (length buffer.old) then Some (length (ints_bytes fields.now)) else None) }
    ensures written { buffer.new ≡ over (ints_bytes fields.now) buffer.old }
{
    let count = fields.len().checked_mul(4)?;
    if buffer.len() < count {
        return None;
    }
    LittleEndian::write_i32_into(fields, &mut buffer[..count]);
    Some(count)
}
