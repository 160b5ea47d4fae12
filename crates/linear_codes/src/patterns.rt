//! The widths of characters, from a table of patterns.
ghost use Rattle.std.specs.Prelude.{◌≡◌, ◌<◌, ◌++◌, [], All, OnOk, length, slice_index_or};
ghost use Rattle.std.specs.List.{flat_map};

use bar_base::NoMemory;

/// Puts the widths of characters at the end, each behind a gap.
pub(crate) fn push_patterns<const N: usize>(
    widths: &mut Vec<u8>,
    table: &[[u8; N]],
    gap: &[u8],
    values: &[u8],
) -> Result<(), NoMemory>
    requires { All (λ value. value < length table.now) values.now }
    ensures { OnOk result (widths.new.items ≡
        widths.old.items ++ flat_map (λ value. gap.now ++ slice_index_or table.now value []) values.now) }
{
    for value in values {
        widths.extend_from_slice(gap)?;
        widths.extend_from_slice(&table[*value as usize])?;
    }
    Ok(())
}
