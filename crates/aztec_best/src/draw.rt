ghost use Rattle.std.specs.Prelude.{◌≡◌, ◌<◌, ◌≤◌, ◌+◌, ◌*◌, ◌^◌, List, Bool, length, IfOk};
ghost use Rattle.aztec_modes.specs.Entry.{code_count, code_next};
ghost use Rattle.aztec_best.specs.Bench.{IsFilledFrom};
ghost use Rattle.aztec_best.specs.Shortest.{IsDrawn, IsFewest};
ghost use Rattle.aztec_best.specs.DrawnPath.{mark_bits};

use crate::bench::{Bench, rows, shortest};
use crate::costs::Costs;
use crate::limit::MOST_ELEMENTS;
use crate::pick::next_code;
use crate::stand::Stand;
use aztec_modes::{Code, Mode, code_count, code_next, push_code};
use bar_base::{Bits, Elements, NoMemory};
use std::alloc::Global;

/// The stand after a code.
fn stand_after(at: Stand, code: Code) -> Stand
    requires { at.place + code_count at.mode code < 2 ^ 32 }
    ensures mode { result.mode ≡ code_next at.mode code }
    ensures place { result.place ≡ at.place + code_count at.mode code }
{
    Stand {
        mode: code_next(at.mode, code),
        place: at.place + code_count(at.mode, code),
    }
}

/// The bits before those of the elements: M/L and U/L in a structured append set, none outside one.
#[tactic(auto, unfolding(crate::specs::DrawnPath::mark_bits))]
fn bits_before(alloc: Global, append: bool) -> Result<Bits, NoMemory>
    ensures { IfOk result (λ bits. bits ≡ mark_bits append) }
{
    let mut bits = Bits::new(alloc);
    if !append {
        return Ok(bits);
    }
    push_code(&mut bits, Mode::Upper, Code::Latch(Mode::Mixed), &[])?;
    push_code(&mut bits, Mode::Mixed, Code::Latch(Mode::Upper), &[])?;
    Ok(bits)
}

/// The drawn bits, put down code by code.
fn drawn_bits(
    alloc: Global,
    costs: &[Costs],
    append: bool,
    elements: &Elements,
) -> Result<Bits, NoMemory>
    requires { IsFilledFrom costs.now elements.now 0 }
    ensures drawn { IfOk result (λ bits. IsDrawn append elements.now bits) }
    ensures bounded { IfOk result (λ bits. length bits ≤ 37 * length elements.now + 10) }
{
    let items = elements.as_slice();
    let mut bits = bits_before(alloc, append)?;
    let mut at = Stand {
        mode: Mode::Upper,
        place: 0,
    };
    while (at.place as usize) < items.len() {
        let code = next_code(costs, elements, at);
        let after = stand_after(at, code);
        let spelled = &items[at.place as usize..after.place as usize];
        push_code(&mut bits, at.mode, code, spelled)?;
        at = after;
    }
    Ok(bits)
}

/// The drawn bits of a message with these elements: of all its spellings the one with fewest bits, and of those the one whose bits come
/// first in dictionary order, 0 before 1 (the choice that ISO/IEC 24778 leaves to the encoder). In a structured append set they begin
/// with M/L and U/L. They are at most 37 an element and ten more. A refusal for want of memory may leave the bench filled for these
/// elements.
pub fn drawn(
    alloc: Global,
    bench: &mut Bench,
    append: bool,
    elements: &Elements,
) -> Result<Bits, NoMemory>
    requires { length elements.now ≤ MOST_ELEMENTS }
    ensures drawn { IfOk result (λ bits. IsDrawn append elements.now bits) }
    ensures only { IfOk result (λ bits. (others : List Bool) → IsDrawn append elements.now others → others ≡ bits) }
    ensures fewest { IfOk result (λ bits. IsFewest append elements.now (length bits)) }
    ensures bounded { IfOk result (λ bits. length bits ≤ 37 * length elements.now + 10) }
{
    prove!(elements.len() <= MOST_ELEMENTS as usize);
    let _fewest = shortest(bench, elements);
    let bits = drawn_bits(alloc, rows(bench), append, elements)?;
    Ok(bits)
}
