// The pixels of tiles by their indices alone, in images and windows that no layer has.
use blocks::bounds::IntegerBounds;
use blocks::tile::TileCoordinates;
use numbers::refusal::Refusal;
use numbers::vec2::Vec2;

fn tile(x: usize, y: usize) -> TileCoordinates<usize> {
    TileCoordinates {
        tile_index: Vec2(x, y),
        level_index: Vec2(7, 9),
    }
}

// Corner and size, or the number of the refusal and its module.
fn told(answer: Result<IntegerBounds, Refusal>) -> (i32, i32, usize, usize) {
    match answer {
        Ok(IntegerBounds { position, size }) => (position.0, position.1, size.0, size.1),
        Err(why) => (
            i32::from(why.number()),
            i32::from(why.module_number()),
            0,
            0,
        ),
    }
}

#[test]
fn in_an_image(rt: HostRuntime) {
    let two = Vec2(2, 2);
    let max = Vec2(5, 3);
    assert_eq!(rt; told(tile(2, 1).to_data_indices(two, max)), (4, 2, 1, 1));
    assert_eq!(rt; told(tile(3, 0).to_data_indices(two, max)), (15, 5, 0, 0));
    assert_eq!(rt; told(tile(0, 2).to_data_indices(two, max)), (15, 5, 0, 0));
    assert_eq!(rt;
        told(tile(0, 0).to_data_indices(Vec2(10, 10), max)),
        (0, 0, 5, 3)
    );
    assert_eq!(rt;
        told(tile(5, 5).to_data_indices(Vec2(0, 0), max)),
        (0, 0, 0, 0)
    );
    assert_eq!(rt;
        told(tile(0, 0).to_data_indices(two, Vec2(0, 3))),
        (15, 5, 0, 0)
    );
}

// The last position that 32 signed bits hold, the next one, and a product past 64 bits.
#[test]
fn in_a_large_image(rt: HostRuntime) {
    let max = Vec2(4294967296, 1);
    assert_eq!(rt;
        told(tile(1, 0).to_data_indices(Vec2(2147483647, 1), max)),
        (2147483647, 0, 2147483647, 1)
    );
    assert_eq!(rt;
        told(tile(1, 0).to_data_indices(Vec2(2147483648, 1), max)),
        (16, 5, 0, 0)
    );
    assert_eq!(rt;
        told(tile(1, 5).to_data_indices(Vec2(2147483648, 1), max)),
        (15, 5, 0, 0)
    );
    assert_eq!(rt;
        told(tile(4294967296, 0).to_data_indices(max, Vec2(18446744073709551615, 1))),
        (15, 5, 0, 0)
    );
}

fn window(x: i32, y: i32) -> IntegerBounds {
    IntegerBounds {
        position: Vec2(x, y),
        size: Vec2(5, 3),
    }
}

#[test]
fn in_a_window(rt: HostRuntime) {
    let two = Vec2(2, 2);
    assert_eq!(rt;
        told(tile(2, 1).to_absolute_indices(two, window(-7, 100))),
        (-3, 102, 1, 1)
    );
    assert_eq!(rt;
        told(tile(2, 1).to_absolute_indices(two, window(2147483643, 100))),
        (2147483647, 102, 1, 1)
    );
    assert_eq!(rt;
        told(tile(2, 1).to_absolute_indices(two, window(2147483644, 0))),
        (16, 5, 0, 0)
    );
    assert_eq!(rt;
        told(tile(3, 1).to_absolute_indices(two, window(2147483647, 0))),
        (15, 5, 0, 0)
    );
    assert_eq!(rt;
        told(tile(2, 1).to_absolute_indices(two, window(-2147483648, -2147483648))),
        (-2147483644, -2147483646, 1, 1)
    );
}

#[test]
fn as_they_are_stored(rt: HostRuntime) {
    let counted = TileCoordinates {
        tile_index: Vec2(3usize, 2147483647),
        level_index: Vec2(0usize, 1),
    };
    let stored = TileCoordinates {
        tile_index: Vec2(3i32, 2147483647),
        level_index: Vec2(0i32, 1),
    };
    assert_eq!(rt;
        TileCoordinates::<i32>::try_from(counted).ok(),
        Some(stored)
    );
    assert_eq!(rt;
        TileCoordinates::<usize>::try_from(stored).ok(),
        Some(counted)
    );
    let far = TileCoordinates {
        tile_index: Vec2(2147483648, 0),
        ..counted
    };
    assert_eq!(rt; TileCoordinates::<i32>::try_from(far).ok(), None);
    let below = TileCoordinates {
        level_index: Vec2(0, -1),
        ..stored
    };
    assert_eq!(rt; TileCoordinates::<usize>::try_from(below).ok(), None);
}
