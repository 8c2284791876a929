// Line order.
ghost use Rattle.std.specs.Prelude.{◌≡◌};
ghost use Rattle.numbers.specs.Codes.{decoded};
ghost use Rattle.blocks.specs.Codes.{line_order};

use numbers::code::UnknownCode;

// The order in which the blocks stand in the file.
#[derive(Clone, Copy, PartialEq, Eq, Debug)]
pub enum LineOrder {
    Increasing,
    Decreasing,
    Unspecified,
}

impl TryFrom<u8> for LineOrder {
    type Error = UnknownCode;

    ghost try_from_gives = { λ code result. result ≡ decoded line_order code };

    fn try_from(code: u8) -> Result<LineOrder, UnknownCode> {
        match code {
            0 => Ok(LineOrder::Increasing),
            1 => Ok(LineOrder::Decreasing),
            2 => Ok(LineOrder::Unspecified),
            _ => Err(UnknownCode(code)),
        }
    }
}
