// Sums, differences, products and conversions of pairs, absent where a part leaves its kind's range.
use numbers::vec2::Vec2;
use numbers::whole::Whole;

const MOST: usize = 18446744073709551615;

#[test]
fn sizes(rt: HostRuntime) {
    assert_eq!(rt; Vec2(1usize, MOST).sum(Vec2(2, 0)), Some(Vec2(3, MOST)));
    assert_eq!(rt; Vec2(1usize, MOST).sum(Vec2(2, 1)), None);
    assert_eq!(rt; Vec2(7usize, 5).difference(Vec2(7, 4)), Some(Vec2(0, 1)));
    assert_eq!(rt; Vec2(1usize, 5).difference(Vec2(2, 3)), None);
    assert_eq!(rt;
        Vec2(4294967295usize, 3).product(Vec2(4294967297, 4)),
        Some(Vec2(MOST, 12))
    );
    assert_eq!(rt; Vec2(3usize, 4294967296).product(Vec2(3, 4294967296)), None);
}

#[test]
fn positions(rt: HostRuntime) {
    assert_eq!(rt;
        Vec2(2147483646i32, -5).sum(Vec2(1, 3)),
        Some(Vec2(2147483647, -2))
    );
    assert_eq!(rt; Vec2(2147483647i32, 0).sum(Vec2(1, 0)), None);
    assert_eq!(rt;
        Vec2(-2147483647i32, 0).difference(Vec2(1, -4)),
        Some(Vec2(-2147483648, 4))
    );
    assert_eq!(rt; Vec2(0i32, -2147483648).difference(Vec2(0, 1)), None);
    assert_eq!(rt;
        Vec2(-65536i32, 2).product(Vec2(32768, -3)),
        Some(Vec2(-2147483648, -6))
    );
    assert_eq!(rt; Vec2(65536i32, 2).product(Vec2(32768, 3)), None);
}

#[test]
fn conversions(rt: HostRuntime) {
    assert_eq!(rt;
        Vec2::<i32>::try_from(Vec2(2147483647usize, 0)).ok(),
        Some(Vec2(2147483647, 0))
    );
    assert_eq!(rt; Vec2::<i32>::try_from(Vec2(0usize, 2147483648)).ok(), None);
    assert_eq!(rt;
        Vec2::<usize>::try_from(Vec2(0i32, 2147483647)).ok(),
        Some(Vec2(0, 2147483647))
    );
    assert_eq!(rt; Vec2::<usize>::try_from(Vec2(-1i32, 0)).ok(), None);
}
