// The limits of a layer's window, and what divides it.
ghost use Rattle.std.specs.Prelude.{◌≡◌, ◌<◌};
ghost use Rattle.layout.specs.Windows.{divides};
ghost use Rattle.schemes.specs.Windows.{axis_fits};

const WINDOW_LIMIT: i64 = 1073741823;

// On one axis: the position is above the near limit, and the size ends below the far one.
pub(crate) fn axis_fits(position: i32, size: usize) -> bool
    ensures { result ≡ axis_fits position size }
{
    let position = i64::from(position);
    let room = WINDOW_LIMIT - position;
    -WINDOW_LIMIT < position && 0 < room && size < room as usize
}

// On one axis: whether a sampling factor divides position and size.
pub(crate) fn axis_divides(factor: usize, position: i32, size: usize) -> bool
    requires { 0 < factor }
    ensures { result ≡ divides factor position size }
{
    position.unsigned_abs() as usize % factor == 0 && size % factor == 0
}
