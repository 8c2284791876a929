// A side in pixels, of a layer, a level or a block. It stands alone, since its fact takes in all that its file imports.
ghost use Rattle.schemes.specs.Sides.{IsSide};

#[derive(Clone, Copy, PartialEq, Eq, PartialOrd, Ord)]
pub struct Side {
    pub pixels: usize,
    ghost ranged: { IsSide pixels },
}
