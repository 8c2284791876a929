// A level as it is cut into blocks.
ghost use Rattle.std.specs.Prelude.{◌≡◌};
ghost use Rattle.blocks.specs.Cuts.{cut_of};
ghost use Rattle.numbers.specs.Wholes.{optional};
ghost use Rattle.schemes.specs.Meanings.{block_size};
ghost use Rattle.std.specs.List.{slice_get};

use schemes::level::Level;
use schemes::scheme::Scheme;

// A level with the number of its columns and rows of blocks.
#[derive(Clone, Copy)]
pub(crate) struct Cut {
    pub(crate) level: Level,
    pub(crate) across: usize,
    pub(crate) down: usize,
}

// The level at a position, and nothing past the last.
pub(crate) fn cut_level<S: Scheme>(scheme: &S, position: usize) -> Option<Cut>
    ensures { result ≡ optional (cut_of (block_size (S.Scheme.meaning scheme.now))) (slice_get (S.Scheme.meaning scheme.now).levels position) }
{
    let level = scheme.level(position)?;
    let size = scheme.block_size();
    Some(Cut {
        level,
        across: size.0.blocks_along(level.width),
        down: size.1.blocks_along(level.height),
    })
}
