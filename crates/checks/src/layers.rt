// Layers that a session can't ask for: deep ones, sampled channels, stated chunk counts. And the totals.
use layout::attribute::{
    BlockDescription, ChannelDescription, LevelMode, LineOrder, SampleType, TileDescription,
};
use layout::description::LayerDescription;
use layout::layer::Layer;
use numbers::refusal::Kind;
use numbers::rounding::RoundingMode;
use numbers::vec2::Vec2;
use std::test::Fail;

// Scan lines, one to a block.
fn lines(x: i32, y: i32, width: usize, height: usize) -> LayerDescription {
    LayerDescription {
        layer_position: Vec2(x, y),
        layer_size: Vec2(width, height),
        blocks: BlockDescription::ScanLines,
        lines_per_block: 1,
        line_order: LineOrder::Increasing,
        deep: false,
        chunk_count: None,
    }
}

// 5 by 3 as a mip map.
fn tiles(tile: usize) -> LayerDescription {
    LayerDescription {
        layer_position: Vec2(0, 0),
        layer_size: Vec2(5, 3),
        blocks: BlockDescription::Tiles(TileDescription {
            tile_size: Vec2(tile, tile),
            level_mode: LevelMode::MipMap,
            rounding_mode: RoundingMode::Down,
        }),
        lines_per_block: 1,
        line_order: LineOrder::Increasing,
        deep: false,
        chunk_count: None,
    }
}

fn channel(sample_type: SampleType, x: usize, y: usize) -> ChannelDescription {
    ChannelDescription {
        sample_type,
        sampling: Vec2(x, y),
    }
}

// Number, module, place and whether the layer is unsupported; zeros where it is accepted.
fn refusal(
    description: LayerDescription,
    channels: &[ChannelDescription],
) -> (u8, u8, usize, bool) {
    match Layer::new(description, channels) {
        Ok(_) => (0, 0, 0, false),
        Err(refusal) => (
            refusal.number(),
            refusal.module_number(),
            refusal.place,
            refusal.kind() == Kind::NotSupported,
        ),
    }
}

#[test]
fn deep_layers_and_stated_counts(rt: HostRuntime) {
    let one = [channel(SampleType::F16, 1, 1)];
    let mut described = tiles(2);
    described.deep = true;
    assert_eq!(rt; refusal(described, &one), (4, 4, 0, true));
    let mut described = tiles(2);
    described.chunk_count = Some(8);
    assert_eq!(rt; refusal(described, &one), (0, 0, 0, false));
    described.chunk_count = Some(7);
    assert_eq!(rt; refusal(described, &one), (14, 4, 0, false));
}

#[test]
fn sampled_channels(rt: HostRuntime) {
    let full = channel(SampleType::F16, 1, 1);
    let half = channel(SampleType::F16, 2, 2);
    assert_eq!(rt; refusal(lines(0, 0, 4, 4), &[half]), (13, 4, 0, true));
    assert_eq!(rt;
        refusal(lines(0, 0, 5, 4), &[full, half]),
        (12, 4, 1, false)
    );
    assert_eq!(rt;
        refusal(lines(0, -3, 4, 4), &[full, full, half]),
        (12, 4, 2, false)
    );
    assert_eq!(rt; refusal(tiles(2), &[full, half]), (11, 4, 1, false));
    let none = channel(SampleType::F16, 1, 0);
    let far = channel(SampleType::F16, 2147483648, 1);
    assert_eq!(rt; refusal(tiles(2), &[full, none]), (10, 4, 1, false));
    assert_eq!(rt; refusal(lines(0, 0, 4, 4), &[far]), (10, 4, 0, false));
    // The first channel that breaks a rule is told, and not the least number.
    assert_eq!(rt;
        refusal(lines(0, 0, 4, 4), &[full, half, none]),
        (13, 4, 1, true)
    );
}

#[test]
fn totals(rt: HostRuntime) -> Result<(), Fail> {
    let channels = [
        channel(SampleType::U32, 1, 1),
        channel(SampleType::F16, 1, 1),
        channel(SampleType::F32, 1, 1),
    ];
    let layer = Layer::new(tiles(2), &channels)?;
    assert_eq!(rt; layer.chunk_count(), 8);
    assert_eq!(rt; layer.bytes_per_pixel(), 10);
    assert_eq!(rt; layer.total_pixel_bytes().ok(), Some(180));
    assert_eq!(rt; layer.max_block_byte_size().ok(), Some(40));
    assert_eq!(rt; layer.max_pixel_file_bytes().ok(), Some(692));
    assert_eq!(rt; layer.block_byte_size(Vec2(1, 1)).ok(), Some(10));
    Ok(())
}

#[test]
fn totals_past_64_bits(rt: HostRuntime) -> Result<(), Fail> {
    let one = [channel(SampleType::F32, 1, 1)];
    let two = [one[0], one[0]];
    let layer = Layer::new(tiles(2147483647), &one)?;
    assert_eq!(rt;
        layer.max_block_byte_size().ok(),
        Some(18446744056529682436)
    );
    let layer = Layer::new(tiles(2147483647), &two)?;
    assert_eq!(rt; layer.max_pixel_file_bytes().ok(), Some(336));
    match layer.max_block_byte_size() {
        Ok(_) => Err(Fail::new("not refused")),
        Err(refusal) => {
            assert_eq!(rt; (refusal.number(), refusal.module_number()), (19, 8));
            Ok(())
        },
    }
}
