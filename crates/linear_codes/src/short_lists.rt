//! Lists of at most two values.
ghost use Rattle.std.specs.Prelude.{◌≡◌, ◌++◌, option_to_list};

use bar_base::Short;

/// The values of one or two characters, of those that there are.
pub(crate) fn values_there(first: Option<u8>, second: Option<u8>) -> Short<2>
    ensures { result ≡ option_to_list first ++ option_to_list second }
{
    let mut values = Short::new();
    if let Some(value) = first {
        values.push(value);
    }
    if let Some(value) = second {
        values.push(value);
    }
    values
}
