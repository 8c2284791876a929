// Answers, and how they are printed.
ghost use Rattle.std.specs.Prelude.{Some};
ghost use Rattle.block_table.specs.Answers.{answer_text, bounds_text, coordinates_text, told_text};

use crate::order::BlocksInOrder;
use crate::prefix::WrittenPrefix;
use blocks::bounds::IntegerBounds;
use blocks::tile::TileCoordinates;
use numbers::refusal::Refusal;
use numbers::vec2::Vec2;
use std::fmt;

// An answer, or the refusal that stands in its place.
#[derive(Drop)]
pub(crate) struct Told<T>(pub(crate) Result<T, Refusal>);

impl<T: fmt::Display> fmt::Display for Told<T> {
    ghost output = { λ told. told_text T.output told.0 };

    fn fmt<W: fmt::Write>(&self, f: &mut fmt::Formatter<W>) -> fmt::Result {
        match &self.0 {
            Ok(answer) => write!(f, "{answer}"),
            Err(why) => write!(f, "no {} {}", why.number(), why.module_number()),
        }
    }
}

#[derive(Drop)]
pub(crate) enum Answer<'a> {
    // The line that described the layer, and how many chunks it has.
    Layer {
        line: &'a str,
        chunk_count: usize,
    },
    Number(usize),
    Bounds(Bounds),
    Coordinates(Coordinates),
    // The number of the place that a block with a number has, and the block's bounds.
    Block {
        number: Told<usize>,
        bounds: Told<Bounds>,
    },
    Prefix(WrittenPrefix),
    Blocks(BlocksInOrder),
}

impl fmt::Display for Answer<'_> {
    ghost output = { answer_text };

    fn fmt<W: fmt::Write>(&self, f: &mut fmt::Formatter<W>) -> fmt::Result {
        match self {
            Answer::Layer { line, chunk_count } => write!(f, "{line}: {chunk_count}"),
            Answer::Number(number) => write!(f, "{number}"),
            Answer::Bounds(bounds) => write!(f, "{bounds}"),
            Answer::Coordinates(tile) => write!(f, "{tile}"),
            Answer::Block { number, bounds } => write!(f, "{number}\n{bounds}"),
            Answer::Prefix(prefix) => write!(f, "{prefix}"),
            Answer::Blocks(blocks) => write!(f, "{blocks}"),
        }
    }
}

impl From<usize> for Answer<'_> {
    fn from(number: usize) -> Self {
        Answer::Number(number)
    }
}

impl From<IntegerBounds> for Answer<'_> {
    fn from(bounds: IntegerBounds) -> Self {
        Answer::Bounds(Bounds(bounds))
    }
}

impl From<TileCoordinates<usize>> for Answer<'_> {
    fn from(tile: TileCoordinates<usize>) -> Self {
        Answer::Coordinates(Coordinates(tile))
    }
}

// Corner and size.
#[derive(Clone, Copy)]
pub(crate) struct Bounds(pub(crate) IntegerBounds);

impl fmt::Display for Bounds {
    ghost output = { λ bounds. Some (bounds_text bounds.0) };

    fn fmt<W: fmt::Write>(&self, f: &mut fmt::Formatter<W>) -> fmt::Result {
        let Vec2(x, y) = self.0.position;
        let Vec2(w, h) = self.0.size;
        write!(f, "{x} {y} {w} {h}")
    }
}

// Tile indices, and the level's pair.
#[derive(Clone, Copy)]
pub(crate) struct Coordinates(pub(crate) TileCoordinates<usize>);

impl fmt::Display for Coordinates {
    ghost output = { λ tile. Some (coordinates_text tile.0) };

    fn fmt<W: fmt::Write>(&self, f: &mut fmt::Formatter<W>) -> fmt::Result {
        let Vec2(x, y) = self.0.tile_index;
        let Vec2(i, j) = self.0.level_index;
        write!(f, "{x} {y} {i} {j}")
    }
}
