//! Reports and refusals of pictures that other programs drew, and of bytes by hand.

ghost use Rattle.zint_settings.specs.Looks.{IsFrame};

use bar_base::Paint;
use std::alloc::Global;
use std::process::Abort;
use std::test::Fail;
use zint_answers::{Fault, ImageFault, Refusal};
use zint_read::read_report;
use zint_settings::{Frame, Look};

// The symbol that says `Code 2D!`, compact with one layer, with the modules (0,1), (0,4) and (0,7) turned, each by column and row.
const DAMAGED: &[u8] = b"000110001100000
100000110000010
101100001000101
011111111111100
011100000001101
000101111101100
100101000101111
101101010101001
001101000101010
010101111101001
100100000001011
100111111111101
010001100010010
011000011011010
111001101100000
";

// A Cyrillic letter, in the set of ECI 7.
const CYRILLIC: &[u8] = b"000100011111000
000101111100111
001100000110110
011111111111110
000100000001010
001101111101111
011101000101101
000101010101110
110101000101101
000101111101100
111100000001001
110111111111111
100011110110010
001101110100100
100101111000111
";

// The GS1 element string [11]571202.
const DATE: &[u8] = b"000110000110100
110100100111000
111100001000111
001111111111100
000100000001010
000101111101001
010101000101100
001101010101100
001101000101110
011101111101010
000100000001100
010111111111100
100001010010010
101100100010011
011101011000110
";

// The second of 26 symbols of a set, in the set of ECI 22.
const SECOND: &[u8] = b"1110111100011001100
1010110100100101101
1111100111100000100
1110001100110110000
0110110100110011001
0010111111111111111
0111010000000100100
1101110111110110001
1000110100010111100
1111010101010101001
0010010100010100111
0011010111110100111
0001010000000101000
0010011111111110011
0101001111100000110
0011110100100100001
1011011111111111001
1010110011101110010
0000111001010101110
";

// A Latin letter, and behind it the Cyrillic one, in the set of ECI 7.
const TWO_SETS: &[u8] = b"000010010001000
000110010111101
011100000110110
001111111111110
001100000001110
001101111101011
011101000101110
000101010101010
000101000101001
011101111101110
011100000001101
100111111111110
010011000110001
110001011110101
111001101111101
";

// A paint without white space.
const PLAIN: Paint = Paint {
    scale: 1,
    white: 0,
    vwhite: 0,
};

// What few bytes read as.
#[tactic(auto, using(zint_read::proofs::Limits::few_within))]
fn answer<R: Abort>(rt: &R, alloc: Global, bytes: &[u8]) -> Result<Vec<u8>, Fault> {
    assert!(rt; bytes.len() <= 65536);
    read_report(alloc, Look::Aztec(Frame::Whole(PLAIN)), bytes)
}

// Whether bytes give this report.
fn reports<R: Abort>(rt: &R, alloc: Global, bytes: &[u8], report: &[u8]) -> bool {
    match answer(rt, alloc, bytes) {
        Ok(text) => text.as_slice() == report,
        Err(_) => false,
    }
}

#[test]
fn tells_what_symbols_say(rt: HostRuntime) -> Result<(), Fail> {
    let damaged = b"size=compact 1
codewords=10+7
corrected=3
append=-
fnc1=no
eci=-
data=Code 2D!
text=Code 2D!
";
    assert!(rt; reports(&rt, rt.alloc(), DAMAGED, damaged));
    let cyrillic = b"size=compact 1
codewords=7+10
corrected=0
append=-
fnc1=no
eci=7
data=\\xCF
text=\xD0\xAF
";
    assert!(rt; reports(&rt, rt.alloc(), CYRILLIC, cyrillic));
    let date = b"size=compact 1
codewords=9+8
corrected=0
append=-
fnc1=yes
eci=-
data=11571202
gs1=[11]571202
text=11571202
";
    assert!(rt; reports(&rt, rt.alloc(), DATE, date));
    let second = b"size=compact 2
codewords=13+27
corrected=0
append=2,26
fnc1=no
eci=22
data=\\xB3\\xB4\\xB4
text=\xD1\x96\xD2\x91\xD2\x91
";
    assert!(rt; reports(&rt, rt.alloc(), SECOND, second));
    let two_sets = b"size=compact 1
codewords=8+9
corrected=0
append=-
fnc1=no
eci=-
data=A\\K000007\\xCF
text=A\xD0\xAF
";
    assert!(rt; reports(&rt, rt.alloc(), TWO_SETS, two_sets));
    Ok(())
}

#[test]
fn tells_a_bmp_by_its_first_two_bytes(rt: HostRuntime) -> Result<(), Fail> {
    assert!(rt;
        matches!(
            &answer(&rt, rt.alloc(), b"BM"),
            Err(Fault::Refused(Refusal::BadImage(ImageFault::Truncated(2))))
        )
    );
    assert!(rt;
        matches!(
            &answer(&rt, rt.alloc(), b"B0"),
            Err(Fault::Refused(Refusal::BadImage(ImageFault::Grid(0))))
        )
    );
    assert!(rt;
        matches!(
            &answer(&rt, rt.alloc(), b"00\n00\n"),
            Err(Fault::Refused(Refusal::BadImage(ImageFault::Side(2, 2))))
        )
    );
    Ok(())
}

// What is seen of few bytes in another frame.
#[tactic(auto, using(zint_read::proofs::Limits::few_within))]
fn seen_in<R: Abort>(rt: &R, alloc: Global, frame: Frame, bytes: &[u8]) -> Result<Vec<u8>, Fault>
    requires { IsFrame frame }
{
    assert!(rt; bytes.len() <= 65536);
    read_report(alloc, Look::Aztec(frame), bytes)
}

#[test]
fn finds_in_a_bmp_alone(rt: HostRuntime) -> Result<(), Fail> {
    assert!(rt;
        matches!(
            &seen_in(&rt, rt.alloc(), Frame::Anywhere, DAMAGED),
            Err(Fault::Refused(Refusal::BadImage(ImageFault::Grid(0))))
        )
    );
    assert!(rt;
        matches!(
            &seen_in(&rt, rt.alloc(), Frame::Anywhere, b"BM"),
            Err(Fault::Refused(Refusal::BadImage(ImageFault::Truncated(2))))
        )
    );
    Ok(())
}

#[test]
fn tells_what_was_lost(rt: HostRuntime) -> Result<(), Fail> {
    let report = seen_in(&rt, rt.alloc(), Frame::Unknown(PLAIN), DAMAGED).map_err(|_| "refused")?;
    assert!(rt;
        report
            .as_slice()
            .starts_with(b"size=compact 1\ncodewords=10+7\ncorrected=3\nlost=0\n")
    );
    Ok(())
}
