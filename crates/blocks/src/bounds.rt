// Rectangles of pixels.
use numbers::vec2::Vec2;

// The corner of a rectangle, and how many pixels it has across and down from there.
#[derive(Clone, Copy, PartialEq, Eq, Debug)]
pub struct IntegerBounds {
    pub position: Vec2<i32>,
    pub size: Vec2<usize>,
}
