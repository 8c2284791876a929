// Commands: one letter, followed by operands of fixed widths.
ghost use Rattle.std.specs.Prelude.{◌≡◌, ◌∷◌};
ghost use Rattle.commands.specs.Commands.{read_command};
ghost use Rattle.fields.specs.Bytes.{seen};

use blocks::tile::TileCoordinates;
use fields::field::Field;
use layout::attribute::{BlockDescription, LevelMode, LineOrder, SampleType, TileDescription};
use layout::description::LayerDescription;
use numbers::rounding::RoundingMode;
use numbers::vec2::Vec2;

// A command by its letter.
#[derive(Clone, Copy)]
pub enum Command {
    C(SampleType),
    S(LayerDescription),
    T(LayerDescription),
    O { first_offset: u64 },
    F,
    B,
    P { number: usize, length: u32 },
    N,
    Q { number: usize },
    Y { y: i32 },
    X(TileCoordinates<i32>),
}

// Where a layer lies and how large it is: `S` and `T` both begin with it.
type Window = (Vec2<i32>, Vec2<u32>);

// What follows a `T`: its window, the tiles' sides, and a byte each for mode, rounding and order.
type Tiling = (Window, Vec2<u32>, (u8, u8, u8));

// The command at the front of the bytes and the bytes after it, or nothing where it can't be read.
pub fn decode(bytes: &[u8]) -> Option<(Command, &[u8])>
    ensures { seen result ≡ read_command bytes.now }
{
    let (letter, rest) = u8::read(bytes)?;
    match char::from(letter) {
        'C' => channel(rest),
        'S' => scan_lines(rest),
        'T' => tiles(rest),
        'O' => {
            let (first_offset, rest) = u64::read(rest)?;
            Some((Command::O { first_offset }, rest))
        }
        'F' => Some((Command::F, rest)),
        'B' => Some((Command::B, rest)),
        'P' => {
            let ((number, length), rest) = <(u64, u32)>::read(rest)?;
            let number = number as usize;
            Some((Command::P { number, length }, rest))
        }
        'N' => Some((Command::N, rest)),
        'Q' => {
            let (number, rest) = u64::read(rest)?;
            let number = number as usize;
            Some((Command::Q { number }, rest))
        }
        'Y' => {
            let (y, rest) = i32::read(rest)?;
            Some((Command::Y { y }, rest))
        }
        'X' => tile_lookup(rest),
        _ => None,
    }
}

// Each of these reads what follows its letter, whose code its clause puts back in front.
fn channel(bytes: &[u8]) -> Option<(Command, &[u8])>
    ensures { seen result ≡ read_command (67 ∷ bytes.now) }
{
    let (code, rest) = u8::read(bytes)?;
    Some((Command::C(SampleType::try_from(code).ok()?), rest))
}

// Out of line, as `tiles` is: the room for all their fields would be cleared on the way to each other letter.
#[inline(never)]
fn scan_lines(bytes: &[u8]) -> Option<(Command, &[u8])>
    ensures { seen result ≡ read_command (83 ∷ bytes.now) }
{
    let (((layer_position, layer_size), lines, order), rest) = <(Window, u16, u8)>::read(bytes)?;
    let description = LayerDescription {
        layer_position,
        layer_size: layer_size.into(),
        blocks: BlockDescription::ScanLines,
        lines_per_block: usize::from(lines),
        line_order: LineOrder::try_from(order).ok()?,
        deep: false,
        chunk_count: None,
    };
    Some((Command::S(description), rest))
}

#[inline(never)]
fn tiles(bytes: &[u8]) -> Option<(Command, &[u8])>
    ensures { seen result ≡ read_command (84 ∷ bytes.now) }
{
    let ((window, tile_size, (mode, rounding, order)), rest) = Tiling::read(bytes)?;
    let (layer_position, layer_size) = window;
    let tile = TileDescription {
        tile_size: tile_size.into(),
        level_mode: LevelMode::try_from(mode).ok()?,
        rounding_mode: RoundingMode::try_from(rounding).ok()?,
    };
    let description = LayerDescription {
        layer_position,
        layer_size: layer_size.into(),
        blocks: BlockDescription::Tiles(tile),
        lines_per_block: 1,
        line_order: LineOrder::try_from(order).ok()?,
        deep: false,
        chunk_count: None,
    };
    Some((Command::T(description), rest))
}

fn tile_lookup(bytes: &[u8]) -> Option<(Command, &[u8])>
    ensures { seen result ≡ read_command (88 ∷ bytes.now) }
{
    let (tile, rest) = TileCoordinates::read(bytes)?;
    Some((Command::X(tile), rest))
}
