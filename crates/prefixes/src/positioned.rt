// Level schemes in the plane of the image.
use numbers::vec2::Vec2;

// A scheme, and where the corner of its levels lies.
#[derive(Clone, Copy)]
pub struct Positioned<S> {
    pub scheme: S,
    pub position: Vec2<i32>,
}
