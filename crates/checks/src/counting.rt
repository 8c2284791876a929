// Logarithms, quotients and the counting functions of one side, at and around their limits.
use numbers::counts::{
    calculate_block_position_and_size, calculate_block_size, compute_block_count,
    compute_level_count, compute_level_size,
};
use numbers::logs::{ceil_log_2, floor_log_2};
use numbers::refusal::{Module, Reason, Refusal};
use numbers::rounding::RoundingMode;

#[test]
fn logarithms(rt: HostRuntime) {
    for (n, floor, ceil) in [
        (0, 0, 0),
        (1, 0, 0),
        (2, 1, 1),
        (3, 1, 2),
        (4, 2, 2),
        (2147483648, 31, 31),
        (2147483649, 31, 32),
        (4294967295, 31, 32),
    ] {
        assert_eq!(rt; floor_log_2(n), floor);
        assert_eq!(rt; ceil_log_2(n), ceil);
    }
}

#[test]
fn quotients(rt: HostRuntime) {
    let none = Refusal::new(Reason::NumberOutOfRange, Module::Numbers);
    assert_eq!(rt; RoundingMode::Down.divide(7usize, 2), Ok(3));
    assert_eq!(rt; RoundingMode::Up.divide(7usize, 2), Ok(4));
    assert_eq!(rt; RoundingMode::Up.divide(7usize, 0), Err(none));
    assert_eq!(rt; RoundingMode::Up.divide(7i32, 2), Ok(4));
    assert_eq!(rt; RoundingMode::Up.divide(0i32, 2), Ok(0));
    assert_eq!(rt; RoundingMode::Down.divide(2147483647i32, 2147483647), Ok(1));
    // The sum of the two would overflow, and the quotient does not.
    assert_eq!(rt; RoundingMode::Up.divide(2147483647i32, 1), Ok(2147483647));
    assert_eq!(rt; RoundingMode::Up.divide(-1i32, 2), Err(none));
    assert_eq!(rt; RoundingMode::Down.divide(1i32, -2), Err(none));
}

#[test]
fn blocks_of_a_side(rt: HostRuntime) {
    let past = Refusal::new(Reason::PositionPastTotal, Module::Sides);
    assert_eq!(rt; compute_block_count(33, 32), Ok(2));
    assert_eq!(rt; compute_block_count(0, 5), Ok(0));
    assert_eq!(rt;
        compute_block_count(18446744073709551615, 1),
        Ok(18446744073709551615)
    );
    assert_eq!(rt;
        compute_block_count(5, 0),
        Err(Refusal::new(Reason::NumberOutOfRange, Module::Numbers))
    );
    assert_eq!(rt; calculate_block_size(5, 2, 4), Ok(1));
    assert_eq!(rt; calculate_block_size(5, 18446744073709551615, 1), Ok(4));
    assert_eq!(rt; calculate_block_size(5, 2, 5), Err(past));
    assert_eq!(rt; calculate_block_position_and_size(33, 32, 1), Ok((32, 1)));
    assert_eq!(rt; calculate_block_position_and_size(7, 0, 9), Ok((0, 0)));
    assert_eq!(rt; calculate_block_position_and_size(33, 32, 2), Err(past));
    assert_eq!(rt;
        calculate_block_position_and_size(18446744073709551615, 4294967296, 4294967296),
        Err(past)
    );
}

#[test]
fn levels_of_a_side(rt: HostRuntime) {
    for (side, down, up) in [
        (0, 1, 1),
        (1, 1, 1),
        (5, 3, 4),
        (2147483644, 31, 32),
        (4294967295, 32, 33),
    ] {
        assert_eq!(rt; compute_level_count(RoundingMode::Down, side), Ok(down));
        assert_eq!(rt; compute_level_count(RoundingMode::Up, side), Ok(up));
    }
    assert_eq!(rt;
        compute_level_count(RoundingMode::Up, 4294967296),
        Err(Refusal::new(Reason::NumberOutOfRange, Module::Sides))
    );
    for (side, level, down, up) in [
        (5, 1, 2, 3),
        (9, 0, 9, 9),
        (5, 63, 1, 1),
        (18446744073709551615, 63, 1, 2),
    ] {
        assert_eq!(rt;
            compute_level_size(RoundingMode::Down, side, level),
            Ok(down)
        );
        assert_eq!(rt; compute_level_size(RoundingMode::Up, side, level), Ok(up));
    }
    assert_eq!(rt;
        compute_level_size(RoundingMode::Down, 5, 64),
        Err(Refusal::new(Reason::LevelIndexTooLarge, Module::Sides))
    );
}
