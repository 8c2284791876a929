// Prefixes written to a lent buffer and read from lent bytes.
ghost use Rattle.std.specs.Prelude.{◌≡◌};
ghost use Rattle.numbers.specs.Refusals.{outcome};
ghost use Rattle.prefixes.specs.Bytes.{ComesBack, buffer_with, fields_read, prefix_read, written};

use crate::coordinates::BlockCoordinates;
use crate::naming::prefix_size;
use crate::prefix::Prefix;
use blocks::tile::TileCoordinates;
use fields::field::Field;
use fields::write::write_ints;
use numbers::refusal::{Module, Reason, Refusal};
use schemes::level::Naming;

pub(crate) const UNREADABLE: Refusal = Refusal {
    reason: Reason::UnreadableBytes,
    module: Module::Prefixes,
    place: 0,
};

const DATA_TOO_LONG: Refusal = Refusal {
    reason: Reason::DataLength,
    module: Module::Prefixes,
    place: 0,
};

fn read_fields(naming: Naming, bytes: &[u8]) -> Option<(BlockCoordinates, i32)>
    ensures { result ≡ fields_read naming bytes.now }
{
    match naming {
        Naming::Line => <(i32, i32)>::read(bytes).map(|((y, data_length), _)| (
            BlockCoordinates::Line { y },
            data_length,
        )),
        Naming::Tile => <(TileCoordinates<i32>, i32)>::read(bytes).map(|((tile, data_length), _)| (
            BlockCoordinates::Tile(tile),
            data_length,
        )),
    }
}

impl Prefix {
    // Reads the first bytes, field by field, and no later ones.
    pub fn read(naming: Naming, bytes: &[u8]) -> Result<Prefix, Refusal>
        ensures { outcome result ≡ prefix_read naming bytes.now }
    {
        let (coordinates, data_length) = read_fields(naming, bytes).ok_or(UNREADABLE)?;
        let data_length = usize::try_from(data_length).map_err(|_| UNREADABLE)?;
        Ok(Prefix {
            coordinates,
            data_length,
        })
    }

    // Writes the first bytes and no later ones; a refusal writes nothing. Answers how many bytes it wrote.
    pub fn write(self, buffer: &mut [u8]) -> Result<usize, Refusal>
        ensures answer { outcome result ≡ written self buffer.old }
        ensures buffer { buffer.new ≡ buffer_with self buffer.old }
        ensures back { ComesBack self result buffer.new }
    {
        if buffer.len() < prefix_size(self.coordinates.naming()) {
            return Err(UNREADABLE);
        }
        let data_length = i32::try_from(self.data_length).map_err(|_| DATA_TOO_LONG)?;
        let count = match self.coordinates {
            BlockCoordinates::Line { y } => write_ints(buffer, &[y, data_length]),
            BlockCoordinates::Tile(coordinates) => {
                let tile = coordinates.tile_index;
                let level = coordinates.level_index;
                write_ints(buffer, &[tile.0, tile.1, level.0, level.1, data_length])
            }
        };
        count.ok_or(UNREADABLE)
    }
}
