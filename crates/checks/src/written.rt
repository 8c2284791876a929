// Prefixes at positions that no layer has, and prefixes read from bytes that no layer wrote.
use blocks::tile::TileCoordinates;
use numbers::refusal::Refusal;
use numbers::vec2::Vec2;
use prefixes::coordinates::BlockCoordinates;
use prefixes::positioned::Positioned;
use prefixes::prefix::Prefix;
use schemes::level::Naming;
use schemes::scan_lines::ScanLines;
use schemes::side::Side;
use std::test::Fail;

// 3 by 4 in blocks of two lines.
fn scheme() -> Option<ScanLines> {
    let size = Side::both(Vec2(3, 4))?;
    let lines = Side::new(2)?;
    Some(ScanLines { size, lines })
}

// What was answered, or 1,000 and the number of the refusal.
fn told(answer: Result<usize, Refusal>) -> usize {
    answer.unwrap_or_else(|why| 1000 + usize::from(why.number()))
}

// The first block's line is held by 32 signed bits, the second block's is not: that is told before all else.
#[test]
fn past_the_last_line(rt: HostRuntime) -> Result<(), Fail> {
    let scheme = scheme().ok_or_else(|| Fail::new("three sides"))?;
    let image = Positioned {
        scheme,
        position: Vec2(0, 2147483646),
    };
    let mut buffer = [7; 9];
    assert_eq!(rt; told(image.write_prefix(1, 5, &mut buffer)), 1016);
    assert_eq!(rt; told(image.write_prefix(1, 5, &mut buffer[..3])), 1016);
    assert_eq!(rt; buffer, [7; 9]);
    assert_eq!(rt; told(image.write_prefix(0, 5, &mut buffer)), 8);
    assert_eq!(rt; buffer, [254, 255, 255, 127, 5, 0, 0, 0, 7]);
    assert_eq!(rt; image.block_coordinates(1).is_ok(), false);
    assert_eq!(rt;
        told(image.lookup(BlockCoordinates::Line { y: 2147483646 })),
        0
    );
    assert_eq!(rt;
        told(image.lookup(BlockCoordinates::Line { y: -2147483648 })),
        1021
    );
    Ok(())
}

// A scheme that is only lent has the blocks that it has.
#[test]
fn of_a_lent_scheme(rt: HostRuntime) -> Result<(), Fail> {
    let scheme = scheme().ok_or_else(|| Fail::new("three sides"))?;
    let image = Positioned {
        scheme: &scheme,
        position: Vec2(0, -3),
    };
    assert_eq!(rt;
        image.block_coordinates(1).ok(),
        Some(BlockCoordinates::Line { y: -1 })
    );
    assert_eq!(rt; told(image.lookup(BlockCoordinates::Line { y: -3 })), 0);
    assert_eq!(rt; told(image.lookup(BlockCoordinates::Line { y: -2 })), 1021);
    Ok(())
}

fn fields(naming: Naming, bytes: &[u8]) -> Option<(BlockCoordinates, usize)> {
    let prefix = Prefix::read(naming, bytes).ok()?;
    Some((prefix.coordinates, prefix.data_length))
}

// Negative and deep coordinates are read as they stand; it is the lookup that knows no such block.
#[test]
fn read_as_they_stand(rt: HostRuntime) {
    let bytes = [
        255, 255, 255, 255, 1, 0, 0, 0, 32, 0, 0, 0, 0, 0, 0, 128, 255, 255, 255, 127, 9,
    ];
    let tile = BlockCoordinates::Tile(TileCoordinates {
        tile_index: Vec2(-1, 1),
        level_index: Vec2(32, -2147483648),
    });
    assert_eq!(rt; fields(Naming::Tile, &bytes), Some((tile, 2147483647)));
    assert_eq!(rt; fields(Naming::Tile, &bytes[..19]), None);
    assert_eq!(rt;
        fields(Naming::Line, &bytes),
        Some((BlockCoordinates::Line { y: -1 }, 1))
    );
    assert_eq!(rt; fields(Naming::Line, &bytes[8..]), None);
    assert_eq!(rt; fields(Naming::Line, &bytes[..7]), None);
}
