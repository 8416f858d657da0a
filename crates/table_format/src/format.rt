//! The number of a format in a footer.
ghost use Rattle.std.specs.Prelude.{◌≡◌};
ghost use Rattle.byte_fields.specs.{ReadsFront};
ghost use Rattle.table_format.specs.Formats.{format_at, format_number};

use byte_fields::{Format, read_u32};

/// The number by which a footer names the format.
pub fn number_of_format(format: Format) -> u32
    ensures { result ≡ format_number format }
{
    match format {
        Format::One => 1,
        Format::Two => 2,
    }
}

/// The format whose number is at the front of the bytes, and the bytes behind it.
#[tactic(auto, unfolding(crate::specs::Formats::format_at))]
pub fn format_of(bytes: &[u8]) -> Option<(Format, &[u8])>
    ensures { ReadsFront (λ x. (x.0, x.1.now)) result (format_at bytes.now) }
{
    let (number, rest) = read_u32(bytes)?;
    match number {
        1 => Some((Format::One, rest)),
        2 => Some((Format::Two, rest)),
        _ => None,
    }
}
