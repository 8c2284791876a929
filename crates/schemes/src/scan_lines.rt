// Scan lines: one level, in blocks as wide as the layer and some lines high.
ghost use Rattle.schemes.specs.Schemes.{scan_lines_meaning};
ghost use Rattle.schemes.specs.Chosen.{scan_lines_lawful};

use crate::level::{Level, Naming};
use crate::levels::Levels;
use crate::scheme::Scheme;
use crate::side::Side;
use crate::single::OneLevel;
use numbers::vec2::Vec2;

#[derive(Clone, Copy)]
pub struct ScanLines {
    pub size: Vec2<Side>,
    pub lines: Side,
}

impl Scheme for ScanLines {
    ghost meaning = { scan_lines_meaning };

    ghost lawful = { scan_lines_lawful };

    fn level_count(&self) -> usize {
        OneLevel { size: self.size }.count()
    }

    fn block_size(&self) -> Vec2<Side> {
        Vec2(self.size.0, self.lines)
    }

    fn naming(&self) -> Naming {
        Naming::Line
    }

    fn level(&self, position: usize) -> Option<Level> {
        OneLevel { size: self.size }.level(position)
    }

    fn position(&self, pair: Vec2<usize>) -> Option<usize> {
        OneLevel { size: self.size }.position(pair)
    }
}
