// A block's prefix, written into a buffer and read back from it.
use crate::answers::Told;
use arrayvec::ArrayVec;
use layout::layer::Layer;
use numbers::refusal::Refusal;
use std::fmt;

// The longest prefix has 20 bytes.
const MOST_ROOM: usize = 24;

// What each byte of the buffer is before anything is written.
const BLANK: u8 = 0xaa;

// How many bytes were written, the buffer, and what is read from it.
#[derive(Drop)]
pub(crate) struct WrittenPrefix {
    written: Told<usize>,
    buffer: Bytes,
    read: Told<ReadPrefix>,
}

impl WrittenPrefix {
    // The prefix of the block with a number, in a buffer of so many bytes.
    pub(crate) fn new(layer: &Layer, number: usize, data_length: usize, room: usize) -> Self {
        let mut buffer = ArrayVec::from([BLANK; MOST_ROOM]);
        buffer.truncate(room);
        let written = layer.write_prefix(number, data_length, buffer.as_mut_slice());
        let read = ReadPrefix::new(layer, buffer.as_slice());
        WrittenPrefix {
            written: Told(written),
            buffer: Bytes(buffer),
            read: Told(read),
        }
    }
}

impl fmt::Display for WrittenPrefix {
    fn fmt<W: fmt::Write>(&self, f: &mut fmt::Formatter<W>) -> fmt::Result {
        let WrittenPrefix {
            written,
            buffer,
            read,
        } = self;
        write!(f, "{written}\n{buffer}\n{read}")
    }
}

// In hexadecimal.
#[derive(Drop)]
struct Bytes(ArrayVec<u8, MOST_ROOM>);

impl fmt::Display for Bytes {
    fn fmt<W: fmt::Write>(&self, f: &mut fmt::Formatter<W>) -> fmt::Result {
        for byte in self.0.as_slice() {
            write!(f, "{byte:02x}")?;
        }
        Ok(())
    }
}

// The data length that a prefix states, and the number of the block that it names.
#[derive(Drop)]
struct ReadPrefix {
    data_length: usize,
    number: Told<usize>,
}

impl ReadPrefix {
    fn new(layer: &Layer, bytes: &[u8]) -> Result<ReadPrefix, Refusal> {
        let prefix = layer.read_prefix(bytes)?;
        Ok(ReadPrefix {
            data_length: prefix.data_length,
            number: Told(layer.lookup(prefix.coordinates)),
        })
    }
}

impl fmt::Display for ReadPrefix {
    fn fmt<W: fmt::Write>(&self, f: &mut fmt::Formatter<W>) -> fmt::Result {
        let ReadPrefix {
            data_length,
            number,
        } = self;
        write!(f, "{data_length} {number}")
    }
}
