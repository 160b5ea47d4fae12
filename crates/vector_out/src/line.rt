//! A line of a drawing, put together before it is written.
ghost use Rattle.std.specs.Prelude.{◌≡◌, ◌+◌, ◌≤◌, ◌++◌, length, decimal};

use arrayvec::ArrayVec;
use itoa::Buffer;

/// The bytes of the longest lines that are put together, with room to spare.
pub(crate) const LONGEST_LINE: usize = 400;

/// Lines of a drawing while they are made.
pub(crate) type Line = ArrayVec<u8, LONGEST_LINE>;

/// Puts `piece` at the end of the line; there is room.
pub(crate) fn put(line: &mut Line, piece: &[u8])
    requires { length line.old.items + length piece.now ≤ LONGEST_LINE }
    ensures { line.new.items ≡ line.old.items ++ piece.now }
{
    line.try_extend_from_slice(piece).unwrap();
}

/// Puts the decimal digits of `number` at the end of the line; there is room for 20.
pub(crate) fn put_number(line: &mut Line, number: u32)
    requires { length line.old.items + 20 ≤ LONGEST_LINE }
    ensures put { line.new.items ≡ line.old.items ++ decimal number }
    ensures bounded { length line.new.items ≤ length line.old.items + 20 }
{
    let mut buffer = Buffer::new();
    line.try_extend_from_slice(buffer.format(number).as_bytes())
        .unwrap();
}
