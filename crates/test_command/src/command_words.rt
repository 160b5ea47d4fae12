//! What words ask for, and which rule they break.

use bar_base::Paint;
use std::alloc::Global;
use std::test::Fail;
use zint_settings::{FORMS, Frame, Look, SYMBOLOGIES, Settings, Symbology, TaskSettings};
use zint_words::{Refusal, settings_of};

// The words with `|` between them, behind the program's name.
fn listed(alloc: Global, words: &str) -> Result<Vec<String>, Fail> {
    let mut list = Vec::new(alloc);
    list.push(String::from_str(alloc, "zint")?)?;
    for word in words.split('|') {
        if !word.is_empty() {
            list.push(String::from_str(alloc, word)?)?;
        }
    }
    Ok(list)
}

// `ok`, `usage`, or the text of the broken rule.
fn answer(alloc: Global, words: &str) -> Result<String, Fail> {
    let list = listed(alloc, words)?;
    match settings_of(alloc, list.as_slice()) {
        Ok(_) => Ok(String::from_str(alloc, "ok")?),
        Err(Refusal::Usage) => Ok(String::from_str(alloc, "usage")?),
        Err(Refusal::BadOption(text)) => Ok(text),
        Err(Refusal::NoMemory) => Ok(String::from_str(alloc, "memory")?),
    }
}

const SPELLINGS: &[(&str, &str)] = &[
    ("-b92|-d|A", "ok"),
    ("-b=128|--data=-5|--direct", "ok"),
    ("--barcode|92|-i|-|--esc|--binary", "ok"),
    ("-b|0092|-dA|-o|a.grid", "ok"),
    ("-b|92|-d|A|-d|B", "usage"),
    ("-b|92|-d", "usage"),
    ("--esc=yes|-d|A", "usage"),
    ("--help", "usage"),
    ("A", "usage"),
    ("-b92|-dA|--seg0=7,x", "usage"),
    ("-b92|-dA|--seg10=7,x", "usage"),
];

// The first and the last value of each range, and the next beyond.
const VALUES: &[(&str, &str)] = &[
    ("-b|91", "-b=91"),
    ("-b|+92", "-b=+92"),
    ("-b|00000000092", "-b=00000000092"),
    ("-o|a.png", "-o=a.png"),
    ("-o|a.gif", "-o=a.gif"),
    ("-o|a.pcx", "-o=a.pcx"),
    ("-o|a.tif", "-o=a.tif"),
    ("-o|a.emf", "-o=a.emf"),
    ("-o|a.txt", "-o=a.txt"),
    ("-b92|-dA|-o|a.txt|--filetype=grid", "ok"),
    ("--filetype=png", "--filetype=png"),
    ("-b92|-dA|--filetype=report", "ok"),
    ("-b92|-dA|--secure=0", "--secure=0"),
    ("-b92|-dA|--secure=5", "--secure=5"),
    ("-b92|-dA|--vers=0", "--vers=0"),
    ("-b92|-dA|--vers=37", "--vers=37"),
    ("-b8|-dA|--vers=2", "--vers=2"),
];

// The ten character sets, and no other.
const CHARACTER_SETS: &[(&str, &str)] = &[
    ("-b92|-dA|--eci=3", "ok"),
    ("-b92|-dA|--eci=7", "ok"),
    ("-b92|-dA|--eci=11", "ok"),
    ("-b92|-dA|--eci=17", "ok"),
    ("-b92|-dA|--eci=22", "ok"),
    ("-b92|-dA|--eci=23", "ok"),
    ("-b92|-dA|--eci=25", "ok"),
    ("-b92|-dA|--eci=26", "ok"),
    ("-b92|-dA|--eci=27", "ok"),
    ("-b92|-dA|--eci=899", "ok"),
    ("-b92|-dA|--eci=4", "--eci=4"),
];

const EXCLUSIONS: &[(&str, &str)] = &[
    ("", "no input"),
    ("-i|-|-d|A", "-d with -i"),
    ("--direct|-o|a", "--direct with -o"),
    ("--gs1parens|--gs1|--binary|-d|A", "--gs1 with -b"),
    ("--gs1parens|--binary|-d|A", "--gs1parens with -b"),
    ("-b92|--gs1parens|--gs1|--binary", "--binary with --gs1"),
    ("-b16|--gs1parens|--binary", "--binary with --gs1parens"),
    ("-b16|--eci=3|--binary", "--binary with -b"),
    ("-b16|--eci=3", "--eci with -b"),
    ("-b92|--eci=3|--gs1parens|--gs1", "--eci with --gs1"),
    ("-b92|--eci=3|--gs1parens", "--eci with --gs1parens"),
    ("-b92|-dA|--gs1|--esc|--secure=1|--vers=5", "ok"),
    ("-b128|--secure=1|--vers=1", "--secure with -b"),
    ("-b9|--vers=1", "--vers with -b"),
];

// The options of pictures: the first and the last value of each range, and the next beyond.
const PICTURES: &[(&str, &str)] = &[
    ("-dA|-o|a.svg|--scale=1|--height=1", "ok"),
    ("-dA|-o|a.eps|--scale=20|--height=200", "ok"),
    ("-dA|-o|a.bmp|--whitesp=0|--vwhitesp=0", "ok"),
    ("-dA|--whitesp=100|--vwhitesp=100", "ok"),
    ("-dA|--scale=0", "--scale=0"),
    ("-dA|--scale=21", "--scale=21"),
    ("-dA|--whitesp=101", "--whitesp=101"),
    ("-dA|--vwhitesp=101", "--vwhitesp=101"),
    ("-dA|--height=0", "--height=0"),
    ("-dA|--height=201", "--height=201"),
    ("-b92|-dA|--height=50", "--height with -b"),
];

// A reading: with what it may be asked for, and the first option that it may not be given with.
const READINGS: &[(&str, &str)] = &[
    ("--read|-i|-|-o|a.txt|--scale=2", "-o=a.txt"),
    ("--read|-ia|--direct|--scale=2", "ok"),
    ("--read|-ia|-ob|--whitesp=1|--vwhitesp=1", "ok"),
    ("--read", "no input"),
    ("--read|--height=9|-dA", "--read with -d"),
    ("--read|-i-|--height=9|-b92", "--read with -b"),
    ("--read|-i-|--height=9", "--read with --height"),
    ("--read|-ia|-dA", "-d with -i"),
    ("--read|-b16|--secure=1", "--read with -b"),
    (
        "--seg1=7,x|--structapp=1,2|--read|-ia",
        "--read with --structapp",
    ),
    ("--read|-ia|--seg1=7,x", "--read with --seg1"),
    ("--read|-ia|--erasures", "ok"),
    ("-b92|-dA|--erasures", "--erasures without --read"),
    ("--erasures|--find", "--erasures without --read"),
    ("--read|-ia|--find", "ok"),
    ("-b92|-dA|--find", "--find without --read"),
    ("--find|--scale=2", "--find without --read"),
    (
        "--read|-ia|--find|--whitesp=1|--scale=2",
        "--find with --scale",
    ),
    (
        "--read|-ia|--find|--vwhitesp=2|--whitesp=1",
        "--find with --whitesp",
    ),
    ("--read|--find|--vwhitesp=2", "--find with --vwhitesp"),
    ("--read|--find|--erasures", "--find with --erasures"),
    ("--read|--find", "no input"),
    ("--scan=8|-ia|-ob", "ok"),
    ("--scan=9|-ia|--direct", "ok"),
    ("--scan=25|-ia", "ok"),
    ("--scan=89|-ia", "ok"),
    ("--scan=16|-ia", "--scan=16"),
    ("--scan=20|-ia|--find|--scale=2", "--scan with --scale"),
    ("--scan=20|-dA", "--scan with -d"),
    ("--scan=20", "no input"),
];

// Each symbology by its number, and the default.
const DRAWN: &[(&str, &str)] = &[
    ("-dA", "ok"),
    ("-dA|--vers=1", "--vers with -b"),
    ("-b8|-dA|--vers=1", "ok"),
    ("-b9|-dA", "ok"),
    ("-b16|-dA|--gs1parens", "ok"),
    ("-b20|-dA", "ok"),
    ("-b25|-dA", "ok"),
    ("-b70|-dA", "ok"),
    ("-b89|-dA", "ok"),
    ("-b92|-dA|--gs1|--gs1parens", "ok"),
    ("-b128|-dA", "ok"),
];

// Places in a set: the first and the last value of each number, identifiers of 32 and of 33 bytes, each end of the bytes
// that they may have, and the symbology.
const PLACES: &[(&str, &str)] = &[
    ("-b92|-dA|--structapp=0,2", "--structapp=0,2"),
    ("-b92|-dA|--structapp=1,1", "--structapp=1,1"),
    ("-b92|-dA|--structapp=1,27", "--structapp=1,27"),
    ("-b92|-dA|--structapp=3,2", "--structapp=3,2"),
    ("-b92|-dA|--structapp=26,26", "ok"),
    ("-b92|-dA|--structapp=+1,2", "--structapp=+1,2"),
    ("-b92|-dA|--structapp=2", "--structapp=2"),
    ("-b92|-dA|--structapp=", "--structapp="),
    ("-b92|-dA|--structapp=1,2,", "--structapp=1,2,"),
    (
        "-b92|-dA|--structapp=1,2,abcdefghijklmnopqrstuvwxyz012345",
        "ok",
    ),
    (
        "-b92|-dA|--structapp=1,2,abcdefghijklmnopqrstuvwxyz0123456",
        "--structapp=1,2,abcdefghijklmnopqrstuvwxyz0123456",
    ),
    ("-b92|-dA|--structapp=1,2,a b", "--structapp=1,2,a b"),
    ("-b92|-dA|--structapp=1,2,a\x7f", "--structapp=1,2,a\x7f"),
    ("-b92|-dA|--structapp=1,2,é", "--structapp=1,2,é"),
    ("-b92|-dA|--gs1|--structapp=1,2", "ok"),
    ("-dA|--structapp=1,2", "--structapp with -b"),
    ("--structapp=1,2|-b128|-dA", "--structapp with -b"),
    ("--structapp=1,2|--vers=1|-dA", "--vers with -b"),
];

// The demonstration: its last number and the next, and the first option that it may not be given with.
const DEMONSTRATIONS: &[(&str, &str)] = &[
    ("--demo=0|--direct", "ok"),
    ("--demo=2147483647|-o|a.svg", "ok"),
    ("--demo=2147483648", "--demo=2147483648"),
    ("--demo=-1", "--demo=-1"),
    ("--demo", "usage"),
    ("-dA|--demo=1", "--demo with -d"),
    ("--demo=1|-ia", "--demo with -i"),
    ("--demo=1|--read", "--demo with --read"),
    ("--read|-ia|--demo=1", "--demo with -i"),
    ("--read|--demo=1", "--demo with --read"),
    ("--demo=1|--binary|-b20", "--demo with -b"),
    ("--demo=1|--eci=3|--gs1|--binary", "--demo with --binary"),
    (
        "--structapp=1,2|--seg2=7,x|--demo=1",
        "--demo with --structapp",
    ),
    ("--demo=1|--seg2=7,x|--seg1=7,x", "--demo with --seg1"),
    ("--demo=1|-dA|-ia", "-d with -i"),
    ("--demo=1|--direct|-oa", "--direct with -o"),
    ("--demo=x|--structapp=0,2", "--structapp=0,2"),
    ("--seg1=x|--demo=x", "--demo=x"),
];

// Segments: values with no comma, with another number, with no data; each exclusion, and the least segment that it names.
const SEGMENTS: &[(&str, &str)] = &[
    ("-b92|-dA|--seg1=7", "--seg1=7"),
    ("-b92|-dA|--seg1=9,x", "--seg1=9,x"),
    ("-b92|-dA|--seg1=,x", "--seg1=,x"),
    ("-b92|-dA|--seg1=", "--seg1="),
    ("-b92|-dA|--seg1=7,", "ok"),
    ("-b92|-dA|--seg9=x|--seg2=y", "--seg2=y"),
    (
        "-b92|-dA|--binary|--eci=3|--structapp=1,2|--seg1=899,x",
        "ok",
    ),
    ("-dA|--seg3=7,x|--seg2=7,x", "--seg2 with -b"),
    ("--seg2=7,x|--seg3=7,x|-b16|-dA", "--seg2 with -b"),
    ("-dA|--seg1=7,x|--structapp=1,2", "--structapp with -b"),
    (
        "-b92|-dA|--gs1parens|--gs1|--seg3=7,x|--seg2=7,x",
        "--seg2 with --gs1",
    ),
    ("--seg2=7,x|--gs1parens|-b92|-dA", "--seg2 with --gs1parens"),
    ("-b92|-dA|--seg2=7,Я", "--seg2 without --seg1"),
    ("--seg2=7,x|-b92", "--seg2 without --seg1"),
    (
        "-b92|-dA|--seg9=7,x|--seg3=7,x|--seg1=7,x",
        "--seg3 without --seg2",
    ),
    (
        "-b92|-dA|--seg4=7,x|--seg2=7,x|--seg1=7,x",
        "--seg4 without --seg3",
    ),
    ("-b92|-dA|--seg5=7,x", "--seg5 without --seg4"),
    ("-b92|-dA|--seg6=7,x", "--seg6 without --seg5"),
    ("-b92|-dA|--seg7=7,x", "--seg7 without --seg6"),
    ("-b92|-dA|--seg8=7,x", "--seg8 without --seg7"),
    ("-b92|-dA|--seg9=7,x", "--seg9 without --seg8"),
    ("--seg1=7,x|-b92", "no input"),
];

#[test]
fn answers(rt: HostRuntime) -> Result<(), Fail> {
    for cases in [
        SPELLINGS,
        VALUES,
        CHARACTER_SETS,
        EXCLUSIONS,
        PICTURES,
        READINGS,
        DRAWN,
        PLACES,
        DEMONSTRATIONS,
        SEGMENTS,
    ] {
        for case in cases.iter() {
            assert_eq!(rt; answer(rt.alloc(), case.0)?.as_str(), case.1);
        }
    }
    Ok(())
}

// What the settings hold: the shares of `--secure` and the options of pictures, each named and not; the place in a set;
// the segments in their order, whatever the order of the words; and the number of the demonstration.
const HELD: &[(&str, &str)] = &[
    ("-b92|-dA|--secure=1", "share 10, paint 1 0 0, height 50"),
    ("-b92|-dA|--secure=2", "share 23, paint 1 0 0, height 50"),
    ("-b92|-dA|--secure=3", "share 36, paint 1 0 0, height 50"),
    ("-b92|-dA|--secure=4", "share 50, paint 1 0 0, height 50"),
    ("-b92|-dA|--vers=36", "share 23, paint 1 0 0, height 50"),
    ("-dA", "share 23, paint 1 0 0, height 50"),
    (
        "-dA|--scale=3|--whitesp=4|--vwhitesp=5|--height=6",
        "share 23, paint 3 4 5, height 6",
    ),
    (
        "--read|-ia|--scale=3|--whitesp=4|--vwhitesp=5",
        "paint 3 4 5",
    ),
    ("--read|-ia", "paint 1 0 0"),
    ("--read|-ia|--erasures|--scale=3", "unknown, paint 3 0 0"),
    ("--read|-ia|--find", "anywhere"),
    ("--scan=20|-ia", "row 20"),
    (
        "-b92|-dA|--structapp=02,026",
        "share 23, paint 1 0 0, height 50, place 2 of 26 ",
    ),
    (
        "-b92|-dA|--structapp=26,26,!a,~,",
        "share 23, paint 1 0 0, height 50, place 26 of 26 !a,~,",
    ),
    (
        "--seg2=0899,,y|--structapp=1,2,z|--seg3=3,|-b92|-dA|--seg1=26,Я, x",
        "share 23, paint 1 0 0, height 50, place 1 of 2 z, 26=Я, x, 899=,y, 3=",
    ),
    (
        "-b92|-dA|--seg9=3,9|--seg8=3,8|--seg7=3,7|--seg6=3,6|--seg5=3,5|--seg4=3,4|--seg3=3,3|--seg2=3,2|--seg1=3,1",
        "share 23, paint 1 0 0, height 50, 3=1, 3=2, 3=3, 3=4, 3=5, 3=6, 3=7, 3=8, 3=9",
    ),
    ("--demo=0", "number 0"),
    ("--direct|--demo=2147483647", "number 2147483647"),
];

#[test]
fn held(rt: HostRuntime) -> Result<(), Fail> {
    for case in HELD.iter() {
        let list = listed(rt.alloc(), case.0)?;
        match settings_of(rt.alloc(), list.as_slice()) {
            Ok(settings) => assert_eq!(rt; told(rt.alloc(), &settings)?.as_str(), case.1),
            Err(_) => assert!(rt; false),
        }
    }
    Ok(())
}

fn told(alloc: Global, settings: &Settings<'_>) -> Result<String, Fail> {
    match &settings.task {
        TaskSettings::Drawing(drawing) => {
            let options = drawing.options;
            let mut text = format!(in alloc;
                "share {}, paint {} {} {}, height {}",
                options.share,
                options.paint.scale,
                options.paint.white,
                options.paint.vwhite,
                options.height
            )?;
            if let Some(place) = drawing.append {
                write!(
                    text,
                    ", place {} of {} {}",
                    place.index, place.count, place.id
                )?;
            }
            for segment in drawing.segments.iter() {
                write!(text, ", {}={}", segment.eci, segment.text)?;
            }
            Ok(text)
        }
        TaskSettings::Reading(reading) => looked_for(alloc, reading.look),
        TaskSettings::Demonstration(number) => Ok(format!(in alloc; "number {}", number)?),
    }
}

// What a reading looks for, and in which way.
fn looked_for(alloc: Global, look: Look) -> Result<String, Fail> {
    match look {
        Look::Aztec(Frame::Whole(paint)) => painted(alloc, "paint", paint),
        Look::Aztec(Frame::Unknown(paint)) => painted(alloc, "unknown, paint", paint),
        Look::Aztec(Frame::Anywhere) => Ok(String::from_str(alloc, "anywhere")?),
        Look::Row(symbology) => Ok(format!(in alloc; "row {}", symbology.number())?),
    }
}

fn painted(alloc: Global, front: &str, paint: Paint) -> Result<String, Fail> {
    Ok(format!(in alloc; "{front} {} {} {}", paint.scale, paint.white, paint.vwhite)?)
}

// The number and the name of each symbology.
const NAMED: &[(Symbology, u32, &str)] = &[
    (Symbology::Code39, 8, "Code 39"),
    (Symbology::ExtendedCode39, 9, "Extended Code 39"),
    (Symbology::Gs1Code128, 16, "GS1-128"),
    (Symbology::Code128, 20, "Code 128"),
    (Symbology::Code93, 25, "Code 93"),
    (Symbology::Rm4scc, 70, "RM4SCC"),
    (Symbology::Itf14, 89, "ITF-14"),
    (Symbology::Aztec, 92, "Aztec Code"),
    (Symbology::AztecRune, 128, "Aztec rune"),
];

// An option, its name, and the numbers of the symbologies that it is for. With each other symbology `-b` is named.
const SUITED: &[(&str, &str, &[u32])] = &[
    ("--gs1", "--gs1 with -b", &[16, 92]),
    ("--gs1parens", "--gs1parens with -b", &[16, 92]),
    ("--eci=3", "--eci with -b", &[92]),
    ("--secure=1", "--secure with -b", &[92]),
    ("--vers=1", "--vers with -b", &[8, 92]),
    (
        "--scale=1",
        "--scale with -b",
        &[8, 9, 16, 20, 25, 70, 89, 92, 128],
    ),
    ("--height=1", "--height with -b", &[8, 9, 16, 20, 25, 89]),
    ("--structapp=1,2", "--structapp with -b", &[92]),
    ("--seg1=7,x", "--seg1 with -b", &[92]),
    ("--seg9=7,x", "--seg9 with -b", &[92]),
];

#[test]
fn symbologies(rt: HostRuntime) -> Result<(), Fail> {
    for row in NAMED.iter() {
        assert_eq!(rt; row.0.number(), row.1);
        assert_eq!(rt; row.0.name(), row.2);
    }
    for row in SUITED.iter() {
        for symbology in SYMBOLOGIES.iter() {
            let number = symbology.number();
            let words = format!(in rt.alloc(); "-b{}|-dA|{}", number, row.0)?;
            let told = answer(rt.alloc(), words.as_str())?;
            assert_eq!(rt; told.as_str() != row.1, row.2.contains(&number));
        }
    }
    Ok(())
}

// Each option that the demonstration may not be given with, by its row of the table of options.
const ROWS: &[(&str, &str)] = &[
    ("-b92", "--demo with -b"),
    ("-dA", "--demo with -d"),
    ("-ia", "--demo with -i"),
    ("--direct|-oa", "--direct with -o"),
    ("--filetype=svg", "--demo with --filetype"),
    ("--esc", "--demo with --esc"),
    ("--binary", "--demo with --binary"),
    ("--gs1", "--demo with --gs1"),
    ("--gs1parens", "--demo with --gs1parens"),
    ("--eci=3", "--demo with --eci"),
    ("--secure=1", "--demo with --secure"),
    ("--vers=1", "--demo with --vers"),
    ("--scale=1", "--demo with --scale"),
    ("--whitesp=1", "--demo with --whitesp"),
    ("--vwhitesp=1", "--demo with --vwhitesp"),
    ("--height=1", "--demo with --height"),
    ("--structapp=1,2", "--demo with --structapp"),
    ("--read", "--demo with --read"),
    ("--seg1=7,x", "--demo with --seg1"),
    ("--seg2=7,x", "--demo with --seg2"),
    ("--seg3=7,x", "--demo with --seg3"),
    ("--seg4=7,x", "--demo with --seg4"),
    ("--seg5=7,x", "--demo with --seg5"),
    ("--seg6=7,x", "--demo with --seg6"),
    ("--seg7=7,x", "--demo with --seg7"),
    ("--seg8=7,x", "--demo with --seg8"),
    ("--seg9=7,x", "--demo with --seg9"),
    ("--erasures", "--demo with --erasures"),
    ("--scan=20", "--demo with --scan"),
    ("--find", "--demo with --find"),
];

// Each row of a table stands at the place of its variant.
#[test]
fn places(rt: HostRuntime) -> Result<(), Fail> {
    for row in ROWS.iter() {
        let words = format!(in rt.alloc(); "--demo=1|{}", row.0)?;
        assert_eq!(rt; answer(rt.alloc(), words.as_str())?.as_str(), row.1);
    }
    for (place, symbology) in SYMBOLOGIES.iter().enumerate() {
        assert_eq!(rt; *symbology as usize, place);
    }
    for (place, form) in FORMS.iter().enumerate() {
        assert_eq!(rt; *form as usize, place);
    }
    Ok(())
}
