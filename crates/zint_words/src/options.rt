//! The table of the options: a row for each, with its names, what it takes, and what it may be given with.
ghost use Rattle.std.specs.Prelude.{◌≡◌};
ghost use Rattle.zint_words.specs.CommandLine.{action_for, long_name, short_name, taken_by};
ghost use Rattle.zint_words.specs.Options.{admits, has_option, has_symbology, is_for_gs1, suits};

use clap::ArgAction;
use zint_settings::Symbology;

/// The options of the command.
#[derive(Clone, Copy, Debug, PartialEq, Eq)]
pub enum OptionName {
    Barcode,
    Data,
    Input,
    Output,
    Direct,
    Filetype,
    Esc,
    Binary,
    Gs1,
    Gs1parens,
    Eci,
    Secure,
    Vers,
    Scale,
    Whitesp,
    Vwhitesp,
    Height,
    Structapp,
    Read,
    Demo,
    Seg1,
    Seg2,
    Seg3,
    Seg4,
    Seg5,
    Seg6,
    Seg7,
    Seg8,
    Seg9,
    Erasures,
    Scan,
    Find,
}

/// What an option takes.
#[derive(Clone, Copy, Debug, PartialEq, Eq)]
pub enum Takes {
    /// Nothing: the option is on where it is given.
    Flag,
    /// Any text.
    Text,
    /// The number of a symbology.
    SymbologyNumber,
    /// The name of a file to write, whose ending may name a form.
    FileName,
    /// The name of a form.
    FormName,
    /// A whole number from the first to the second.
    Number(u32, u32),
    /// The number of a symbology whose rows are read.
    RowSymbologyNumber,
    /// A whole number from 1 to the greatest version of the symbology.
    Version,
    /// The ECI number of a character set.
    CharacterSet,
    /// A place in a structured append set: `I,C` or `I,C,ID`.
    SetPlace,
    /// A segment: `ECI,DATA`.
    Segment,
}

// The table: a row for each option, in the order of the variants. It has the variant, the name after `--`, the letter
// after `-`, what the option takes, the symbologies that it is for, whether it is for GS1 data too, and the other options
// that it may be given with.
macro_rules! option_table {
    ($column:ident) => {
        &[
            $column!(Barcode, "barcode", Some('b'), Takes::SymbologyNumber, every, any_data, any_option),
            $column!(Data, "data", Some('d'), Takes::Text, every, any_data, any_option),
            $column!(Input, "input", Some('i'), Takes::Text, every, any_data, any_option),
            $column!(Output, "output", Some('o'), Takes::FileName, every, any_data, any_option),
            $column!(Direct, "direct", None, Takes::Flag, every, any_data, any_option),
            $column!(Filetype, "filetype", None, Takes::FormName, every, any_data, any_option),
            $column!(Esc, "esc", None, Takes::Flag, every, any_data, any_option),
            $column!(Binary, "binary", None, Takes::Flag, every, no_gs1, any_option),
            $column!(Gs1, "gs1", None, Takes::Flag, [Gs1Code128 Aztec], any_data, any_option),
            $column!(Gs1parens, "gs1parens", None, Takes::Flag, [Gs1Code128 Aztec], any_data, any_option),
            $column!(Eci, "eci", None, Takes::CharacterSet, [Aztec], no_gs1, any_option),
            $column!(Secure, "secure", None, Takes::Number(1, 4), [Aztec], any_data, any_option),
            $column!(Vers, "vers", None, Takes::Version, [Code39 Aztec], any_data, any_option),
            $column!(Scale, "scale", None, Takes::Number(1, 20), every, any_data, any_option),
            $column!(Whitesp, "whitesp", None, Takes::Number(0, 100), every, any_data, any_option),
            $column!(Vwhitesp, "vwhitesp", None, Takes::Number(0, 100), every, any_data, any_option),
            $column!(Height, "height", None, Takes::Number(1, 200),
                [Code39 ExtendedCode39 Gs1Code128 Code128 Code93 Itf14], any_data, any_option),
            $column!(Structapp, "structapp", None, Takes::SetPlace, [Aztec], any_data, any_option),
            $column!(Read, "read", None, Takes::Flag, every, any_data,
                [Input Output Direct Scale Whitesp Vwhitesp Erasures Find]),
            $column!(Demo, "demo", None, Takes::Number(0, 2_147_483_647), every, any_data, [Output Direct]),
            $column!(Seg1, "seg1", None, Takes::Segment, [Aztec], no_gs1, any_option),
            $column!(Seg2, "seg2", None, Takes::Segment, [Aztec], no_gs1, any_option),
            $column!(Seg3, "seg3", None, Takes::Segment, [Aztec], no_gs1, any_option),
            $column!(Seg4, "seg4", None, Takes::Segment, [Aztec], no_gs1, any_option),
            $column!(Seg5, "seg5", None, Takes::Segment, [Aztec], no_gs1, any_option),
            $column!(Seg6, "seg6", None, Takes::Segment, [Aztec], no_gs1, any_option),
            $column!(Seg7, "seg7", None, Takes::Segment, [Aztec], no_gs1, any_option),
            $column!(Seg8, "seg8", None, Takes::Segment, [Aztec], no_gs1, any_option),
            $column!(Seg9, "seg9", None, Takes::Segment, [Aztec], no_gs1, any_option),
            $column!(Erasures, "erasures", None, Takes::Flag, every, any_data, any_option),
            $column!(Scan, "scan", None, Takes::RowSymbologyNumber, every, any_data, [Input Output Direct]),
            $column!(Find, "find", None, Takes::Flag, every, any_data, any_option),
        ]
    };
}

pub(crate) use option_table;

macro_rules! name {
    ($option:ident, $($rest:tt)*) => {
        OptionName::$option
    };
}

macro_rules! row {
    ($option:ident, $long:literal, $short:expr, $takes:expr, $suited:tt, $data:ident, $company:tt) => {
        (
            OptionName::$option,
            $long,
            $short,
            $takes,
            suited!($suited),
            is_for_gs1!($data),
            company!($company),
        )
    };
}

macro_rules! suited {
    (every) => { None };
    ([$($symbology:ident)+]) => { Some(&[$(Symbology::$symbology),+]) };
}

macro_rules! is_for_gs1 {
    (any_data) => { true };
    (no_gs1) => { false };
}

macro_rules! company {
    (any_option) => { None };
    ([$($option:ident)+]) => { Some(&[$(OptionName::$option),+]) };
}

/// The options, in the order in which their rules are tested.
pub const OPTION_NAMES: &[OptionName] = option_table!(name);

/// The rows of the options, in the order of their variants.
pub const OPTIONS: &[(
    OptionName,
    &str,
    Option<char>,
    Takes,
    Option<&[Symbology]>,
    bool,
    Option<&[OptionName]>,
)] = option_table!(row);

/// The options that take a segment, in the order of the segments.
pub const SEGMENT_OPTIONS: &[OptionName] = &[
    OptionName::Seg1,
    OptionName::Seg2,
    OptionName::Seg3,
    OptionName::Seg4,
    OptionName::Seg5,
    OptionName::Seg6,
    OptionName::Seg7,
    OptionName::Seg8,
    OptionName::Seg9,
];

impl Takes {
    /// How `clap` treats an option that takes this: as a flag, or as set once to one value.
    pub fn action(self) -> ArgAction
        ensures { result ≡ action_for self }
    {
        match self {
            Takes::Flag => ArgAction::SetTrue,
            _ => ArgAction::Set,
        }
    }
}

impl OptionName {
    /// The name after `--`.
    #[tactic(auto, unfolding(crate::specs::CommandLine::long_name, crate::specs::CommandLine::option_row))]
    pub fn long(self) -> &'static str
        ensures { result.now ≡ long_name self }
    {
        OPTIONS[self as usize].1
    }

    /// The letter after `-`, where there is one.
    #[tactic(auto, unfolding(crate::specs::CommandLine::short_name, crate::specs::CommandLine::option_row))]
    pub fn short(self) -> Option<char>
        ensures { result ≡ short_name self }
    {
        OPTIONS[self as usize].2
    }

    /// What the option takes.
    #[tactic(auto, unfolding(crate::specs::CommandLine::taken_by, crate::specs::CommandLine::option_row))]
    pub fn takes(self) -> Takes
        ensures { result ≡ taken_by self }
    {
        OPTIONS[self as usize].3
    }

    /// Whether the option is for the symbology.
    #[tactic(auto, unfolding(crate::specs::Options::suits, crate::specs::CommandLine::option_row))]
    pub fn suits(self, symbology: Symbology) -> bool
        ensures { result ≡ suits self symbology }
    {
        match OPTIONS[self as usize].4 {
            Some(suited) => has_symbology(suited, symbology),
            None => true,
        }
    }

    /// Whether the option is for GS1 data, as for all other data.
    #[tactic(auto, unfolding(crate::specs::Options::is_for_gs1, crate::specs::CommandLine::option_row))]
    pub fn is_for_gs1(self) -> bool
        ensures { result ≡ is_for_gs1 self }
    {
        OPTIONS[self as usize].5
    }

    /// Whether the option may be given with the other one, as with itself.
    #[tactic(auto, unfolding(crate::specs::Options::admits, crate::specs::CommandLine::option_row))]
    pub fn admits(self, other: OptionName) -> bool
        ensures { result ≡ admits self other }
    {
        match OPTIONS[self as usize].6 {
            Some(company) => other == self || has_option(company, other),
            None => true,
        }
    }
}

fn has_symbology(symbologies: &[Symbology], symbology: Symbology) -> bool
    ensures { result ≡ has_symbology symbologies.now symbology }
{
    symbologies.iter().any(|other| *other == symbology)
}

fn has_option(options: &[OptionName], option: OptionName) -> bool
    ensures { result ≡ has_option options.now option }
{
    options.iter().any(|other| *other == option)
}
