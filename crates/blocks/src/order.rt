// Line order: which block comes i-th.
ghost use Rattle.std.specs.Prelude.{◌≡◌, ◌+◌, ◌-◌, ◌*◌, ◌^◌, ◌<◌, ◌≤◌};
ghost use Rattle.blocks.specs.Orders.{OrdersAll, ordered_blocks, turned};
ghost use Rattle.std.specs.List.{slice_get};

use crate::block::Block;
use crate::cut::cut_level;
use crate::line_order::LineOrder;
use crate::numbering::find_block;
use crate::pixels::bounds;
use crate::tile::TileIndices;
use schemes::scheme::Scheme;

// The row that comes at this index among so many.
fn turned_row(line_order: LineOrder, rows: usize, index: usize) -> usize
    requires { index < rows }
    ensures { result ≡ turned line_order rows index }
{
    match line_order {
        LineOrder::Decreasing => rows - 1 - index,
        LineOrder::Increasing | LineOrder::Unspecified => index,
    }
}

// The number of the block in the same column of another row.
fn moved(number: usize, from: usize, to: usize, across: usize) -> usize
    requires back { from * across ≤ number }
    requires rows { to * across < 2 ^ 64 }
    requires fits { number - from * across + to * across < 2 ^ 64 }
    ensures { result ≡ number - from * across + to * across }
{
    number - from * across + to * across
}

// The number of the block that comes at an index in line order, from 0, with its tile indices; nothing past the last.
pub fn ordered_block<S: Scheme>(
    scheme: &S,
    line_order: LineOrder,
    index: usize,
) -> Option<(usize, TileIndices)>
    ensures answer { result ≡ slice_get (ordered_blocks line_order (S.Scheme.meaning scheme.now)) index }
    ensures all { OrdersAll line_order (S.Scheme.meaning scheme.now) }
{
    let risen = find_block(scheme, index).ok()?;
    let cut = cut_level(scheme, risen.position)?;
    let row = turned_row(line_order, cut.down, risen.row);
    let block = Block { row, ..risen };
    let number = moved(index, risen.row, row, cut.across);
    let location = block.tile_coordinates();
    let size = bounds(scheme, block).size;
    Some((number, TileIndices { location, size }))
}
