//! The forms of the output, by their names and by the endings of file names.
ghost use Rattle.std.specs.Prelude.{◌≡◌};
ghost use Rattle.std.specs.List.{list_any};
ghost use Rattle.zint_settings.specs.Forms.{ends_in, form_by_ending, form_ending, form_in, form_name, has_left_out_ending, is_asked_by};

/// The form in which a symbol is written.
#[derive(Clone, Copy, Debug, PartialEq, Eq)]
pub enum Form {
    /// Scalable Vector Graphics.
    Svg,
    /// Encapsulated PostScript.
    Eps,
    /// A bitmap file.
    Bmp,
    /// A line of `0` and `1` for each row of modules.
    Grid,
    /// Lines on the symbol and its codewords, and then the grid.
    Report,
}

// The table: a row for each form, in the order of the variants. It has the variant, the name that `--filetype` takes, and
// the ending of the names of files that are of this form.
macro_rules! forms {
    ($column:ident) => {
        &[
            $column!(Svg, "svg", Some(".svg")),
            $column!(Eps, "eps", Some(".eps")),
            $column!(Bmp, "bmp", Some(".bmp")),
            $column!(Grid, "grid", None),
            $column!(Report, "report", None),
        ]
    };
}

macro_rules! variant {
    ($form:ident, $name:literal, $ending:expr) => {
        Form::$form
    };
}

macro_rules! row {
    ($form:ident, $name:literal, $ending:expr) => {
        (Form::$form, $name, $ending)
    };
}

/// The forms.
pub const FORMS: &[Form] = forms!(variant);

/// The rows of the forms, in the order of their variants.
pub const FORM_ROWS: &[(Form, &str, Option<&str>)] = forms!(row);

/// The endings of the names of files of forms that are left out.
pub const LEFT_OUT: [&str; 6] = [".png", ".gif", ".pcx", ".tif", ".emf", ".txt"];

impl Form {
    /// The name that `--filetype` takes.
    #[tactic(auto, unfolding(crate::specs::Forms::form_name, crate::specs::Forms::form_row))]
    pub fn name(self) -> &'static str
        ensures { result.now ≡ form_name self }
    {
        FORM_ROWS[self as usize].1
    }

    // Whether the file's name ends as files of this form do.
    #[tactic(auto, unfolding(crate::specs::Forms::is_asked_by, crate::specs::Forms::form_row))]
    fn is_asked_by(self, name: &str) -> bool
        ensures { result ≡ is_asked_by self name.now }
    {
        match FORM_ROWS[self as usize].2 {
            Some(ending) => ends_in(name, ending),
            None => false,
        }
    }
}

/// The form with this name.
#[tactic(auto, unfolding(crate::specs::Forms::form_in))]
pub fn form_in(text: &str) -> Option<Form>
    ensures { result ≡ form_in text.now }
{
    FORMS.iter().copied().find(|form| form.name() == text)
}

/// The form that a file's name asks for by its ending: the grid where it asks for no other.
#[tactic(auto, unfolding(crate::specs::Forms::form_by_ending))]
pub fn form_by_ending(name: &str) -> Form
    ensures { result ≡ form_by_ending name.now }
{
    form_ending(name).unwrap_or(Form::Grid)
}

fn form_ending(name: &str) -> Option<Form>
    ensures { result ≡ form_ending name.now }
{
    FORMS.iter().copied().find(|form| form.is_asked_by(name))
}

/// Whether the name ends as files of a form do that is left out.
#[tactic(auto, unfolding(crate::specs::Forms::has_left_out_ending))]
pub fn has_left_out_ending(name: &str) -> bool
    ensures { result ≡ has_left_out_ending name.now }
{
    ends_in_any(name, &LEFT_OUT)
}

// Whether the name ends in the text.
#[tactic(auto, unfolding(crate::specs::Forms::ends_in))]
fn ends_in(name: &str, ending: &str) -> bool
    ensures { result ≡ ends_in ending.now name.now }
{
    name.as_bytes().ends_with(ending.as_bytes())
}

// Whether the name ends in one of the texts.
fn ends_in_any(name: &str, endings: &[&str]) -> bool
    ensures { result ≡ list_any (λ ending. ends_in ending.now name.now) endings.now }
{
    endings.iter().any(|ending| ends_in(name, ending))
}
