// Questions about a layer and its blocks.
use crate::answers::{Answer, Bounds, Told};
use crate::order::BlocksInOrder;
use crate::prefix::WrittenPrefix;
use crate::repeated::Repeated;
use crate::words::{int, size};
use blocks::numbering::{find_block, number_of_block};
use blocks::pixels::bounds_of_block;
use blocks::tile::TileCoordinates;
use layout::layer::Layer;
use numbers::refusal::Refusal;
use numbers::vec2::Vec2;
use prefixes::coordinates::BlockCoordinates;

#[derive(Clone, Copy)]
pub(crate) enum Question<'a> {
    // Of how many chunks it has, by the line that described it.
    Layer {
        line: &'a str,
    },
    // Of all its blocks in line order.
    Blocks,
    Block {
        number: usize,
    },
    Row {
        line: i32,
    },
    Lookup(BlockCoordinates),
    InLevel(TileCoordinates<usize>),
    InPlane(TileCoordinates<usize>),
    Prefix {
        number: usize,
        data_length: usize,
        room: usize,
    },
    // What no word names sums to 0.
    Repeated {
        question: Option<Repeated>,
        times: usize,
    },
}

impl<'a> Question<'a> {
    // The question of a line that has these numbers. None are needed to ask for all blocks, and three for a prefix.
    pub(crate) fn read(line: &'a str, numbers: &[i64]) -> Option<Question<'a>> {
        let mut words = line.split_whitespace();
        let question = match (words.next().unwrap_or(""), numbers) {
            ("layer", _) => Question::Layer { line },
            (_, []) => Question::Blocks,
            ("block", [number]) => Question::Block {
                number: size(*number),
            },
            ("row", [line]) => Question::Row { line: int(*line) },
            ("find", [y]) => Question::Lookup(BlockCoordinates::Line { y: int(*y) }),
            ("find", [x, y, i, j]) => {
                let tile = tile(int(*x), int(*y), int(*i), int(*j));
                Question::Lookup(BlockCoordinates::Tile(tile))
            }
            ("abs", [x, y, i, j]) => {
                Question::InLevel(tile(size(*x), size(*y), size(*i), size(*j)))
            }
            ("win", [x, y, i, j]) => {
                Question::InPlane(tile(size(*x), size(*y), size(*i), size(*j)))
            }
            (_, [number, data_length, room]) => Question::Prefix {
                number: size(*number),
                data_length: size(*data_length),
                room: size(*room),
            },
            ("repeat", [times]) => Question::Repeated {
                question: Repeated::read(words.next().unwrap_or("")),
                times: size(*times),
            },
            _ => return None,
        };
        Some(question)
    }

    pub(crate) fn ask(self, layer: &Layer) -> Result<Answer<'a>, Refusal> {
        Ok(match self {
            Question::Layer { line } => Answer::Layer {
                line,
                chunk_count: layer.chunk_count(),
            },
            Question::Blocks => Answer::Blocks(BlocksInOrder(*layer)),
            Question::Block { number } => Answer::Block {
                number: Told(number_of_place(layer, number)),
                bounds: Told(bounds_of_block(&layer.scheme(), number).map(Bounds)),
            },
            Question::Row { line } => layer.get_scan_line_block_tile_coordinates(line)?.into(),
            Question::Lookup(coordinates) => layer.lookup(coordinates)?.into(),
            Question::InLevel(tile) => layer.get_absolute_block_pixel_coordinates(tile)?.into(),
            Question::InPlane(tile) => layer.get_block_data_window_pixel_coordinates(tile)?.into(),
            Question::Prefix {
                number,
                data_length,
                room,
            } => Answer::Prefix(WrittenPrefix::new(layer, number, data_length, room)),
            Question::Repeated { question, times } => {
                question
                    .map_or(0, |question| question.ask(layer, times))
                    .into()
            }
        })
    }
}

fn tile<T>(x: T, y: T, i: T, j: T) -> TileCoordinates<T> {
    TileCoordinates {
        tile_index: Vec2(x, y),
        level_index: Vec2(i, j),
    }
}

// The number of the place that the block with a number has.
fn number_of_place(layer: &Layer, number: usize) -> Result<usize, Refusal> {
    let scheme = layer.scheme();
    let block = find_block(&scheme, number)?;
    number_of_block(&scheme, block.position, block.row, block.column)
}
