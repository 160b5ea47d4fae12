/// The answer where no check word is near enough. The word is as it was.
#[derive(Debug, Clone, Copy, PartialEq, Eq)]
pub struct TooDamaged;
