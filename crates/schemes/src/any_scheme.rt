// One of the four schemes.
ghost use Rattle.schemes.specs.Schemes.{any_meaning};
ghost use Rattle.schemes.specs.Chosen.{any_lawful};

use crate::level::{Level, Naming};
use crate::mip::Mip;
use crate::rip::Rip;
use crate::scan_lines::ScanLines;
use crate::scheme::Scheme;
use crate::side::Side;
use crate::single::Single;
use numbers::vec2::Vec2;

#[derive(Clone, Copy)]
pub enum AnyScheme {
    ScanLines(ScanLines),
    Single(Single),
    Mip(Mip),
    Rip(Rip),
}

impl Scheme for AnyScheme {
    ghost meaning = { any_meaning };

    ghost lawful = { any_lawful };

    fn level_count(&self) -> usize {
        match self {
            AnyScheme::ScanLines(s) => s.level_count(),
            AnyScheme::Single(s) => s.level_count(),
            AnyScheme::Mip(s) => s.level_count(),
            AnyScheme::Rip(s) => s.level_count(),
        }
    }

    fn block_size(&self) -> Vec2<Side> {
        match self {
            AnyScheme::ScanLines(s) => s.block_size(),
            AnyScheme::Single(s) => s.block_size(),
            AnyScheme::Mip(s) => s.block_size(),
            AnyScheme::Rip(s) => s.block_size(),
        }
    }

    fn naming(&self) -> Naming {
        match self {
            AnyScheme::ScanLines(s) => s.naming(),
            AnyScheme::Single(s) => s.naming(),
            AnyScheme::Mip(s) => s.naming(),
            AnyScheme::Rip(s) => s.naming(),
        }
    }

    fn level(&self, position: usize) -> Option<Level> {
        match self {
            AnyScheme::ScanLines(s) => s.level(position),
            AnyScheme::Single(s) => s.level(position),
            AnyScheme::Mip(s) => s.level(position),
            AnyScheme::Rip(s) => s.level(position),
        }
    }

    fn position(&self, pair: Vec2<usize>) -> Option<usize> {
        match self {
            AnyScheme::ScanLines(s) => s.position(pair),
            AnyScheme::Single(s) => s.position(pair),
            AnyScheme::Mip(s) => s.position(pair),
            AnyScheme::Rip(s) => s.position(pair),
        }
    }
}
