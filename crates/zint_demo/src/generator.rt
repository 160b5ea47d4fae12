//! The generator of the demonstration's text.
ghost use Rattle.std.specs.Prelude.{◌≡◌, ◌+◌, ◌%◌, ◌≤◌, ◌<◌};
ghost use Rattle.zint_demo.specs.Generator.{byte_in, class_of, drawn_in, next_state, piece_length};

/// A generator, in one of its states.
#[derive(Clone, Copy, Debug)]
pub struct Generator {
    /// The state.
    pub state: u32,
}

/// The class of the bytes of a piece.
#[derive(Clone, Copy, Debug)]
pub enum Class {
    /// The letters `A` to `Z`.
    Capital,
    /// The letters `a` to `z`.
    Small,
    /// The digits.
    Digit,
    /// The signs from `!` to `/`.
    Sign,
    /// All bytes.
    Any,
}

impl Generator {
    /// Goes on to the next state, and gives the number that is drawn there.
    pub fn draw(&mut self) -> u32
        ensures next { self.new.state ≡ next_state self.old.state }
        ensures drawn { result ≡ drawn_in self.new.state }
    {
        self.state = next_state(self.state);
        self.state / 65536
    }
}

/// The state behind a state.
#[tactic(auto, unfolding(crate::specs::Generator::next_state))]
fn next_state(state: u32) -> u32
    ensures { result ≡ next_state state }
{
    ((1103515245 * u64::from(state) + 12345) % 2147483648) as u32
}

/// The class that a drawn number names.
pub fn class_of(drawn: u32) -> Class
    ensures { result ≡ class_of drawn }
{
    match drawn % 5 {
        0 => Class::Capital,
        1 => Class::Small,
        2 => Class::Digit,
        3 => Class::Sign,
        _ => Class::Any,
    }
}

/// The length of a piece that a drawn number names.
pub fn piece_length(drawn: u32) -> u32
    ensures length { result ≡ piece_length drawn }
    ensures bounded { result ≤ 40 }
{
    1 + drawn % 40
}

/// The byte of a class that a drawn number names.
pub fn byte_in(class: Class, drawn: u32) -> u8
    ensures { result ≡ byte_in class drawn }
{
    let byte = match class {
        Class::Capital => 65 + drawn % 26,
        Class::Small => 97 + drawn % 26,
        Class::Digit => 48 + drawn % 10,
        Class::Sign => 33 + drawn % 15,
        Class::Any => drawn % 256,
    };
    byte as u8
}
