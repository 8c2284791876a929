// Fields that are stored one after another.
ghost use Rattle.std.specs.Prelude.{◌≡◌, ◌+◌};
ghost use Rattle.fields.specs.Behind.{both_behind, pair_behind, three_behind};
ghost use Rattle.fields.specs.Bytes.{both_at, pair_at, three_at};

use crate::field::Field;
use numbers::vec2::Vec2;

impl<A: Field, B: Field> Field for (A, B) {
    ghost width = { A.width + B.width };

    ghost value = { both_at A.width A.value B.value };

    ghost behind = { both_behind A.width A.value B.value A.behind B.behind };

    fn read(bytes: &[u8]) -> Option<((A, B), &[u8])> {
        let (first, rest) = A::read(bytes)?;
        let (second, rest) = B::read(rest)?;
        Some(((first, second), rest))
    }
}

impl<A: Field, B: Field, C: Field> Field for (A, B, C) {
    ghost width = { A.width + B.width + C.width };

    ghost value = { three_at A.width B.width A.value B.value C.value };

    ghost behind = { three_behind A.width B.width A.value B.value C.value A.behind B.behind C.behind };

    fn read(bytes: &[u8]) -> Option<((A, B, C), &[u8])> {
        let ((first, second), rest) = <(A, B)>::read(bytes)?;
        let (third, rest) = C::read(rest)?;
        Some(((first, second, third), rest))
    }
}

impl<T: Field> Field for Vec2<T> {
    ghost width = { T.width + T.width };

    ghost value = { pair_at T.width T.value };

    ghost behind = { pair_behind T.width T.value T.behind };

    fn read(bytes: &[u8]) -> Option<(Vec2<T>, &[u8])> {
        let ((x, y), rest) = <(T, T)>::read(bytes)?;
        Some((Vec2(x, y), rest))
    }
}
