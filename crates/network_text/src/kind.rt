//! The kinds of statements.

ghost use Rattle.std.specs.Prelude.{◌≡◌};
ghost use Rattle.network_text.specs.Given.{kind_in};

/// What a statement does.
#[derive(Clone, Copy)]
pub enum Kind {
    Exchanger,
    Split,
    Pass,
    Mix,
    End,
}

/// The kind that the first field of a statement names.
pub fn kind_of(word: &[u8]) -> Option<Kind>
    ensures { result ≡ kind_in word.now }
{
    if word == b"exchanger".as_slice() {
        Some(Kind::Exchanger)
    } else if word == b"split".as_slice() {
        Some(Kind::Split)
    } else if word == b"pass".as_slice() {
        Some(Kind::Pass)
    } else if word == b"mix".as_slice() {
        Some(Kind::Mix)
    } else if word == b"end".as_slice() {
        Some(Kind::End)
    } else {
        None
    }
}
