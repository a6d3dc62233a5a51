//! Names of streams, utilities, exchangers and branches.
ghost use Rattle.std.specs.Prelude.{◌≡◌, ◌↔◌, ◌+◌, ◌-◌, ◌*◌, ◌<◌, SomeIff, IsTrue, slice_index, length};
ghost use Rattle.std.specs.Prelude.{nat_eq, Some, refl, is_some, IfSome};
ghost use Rattle.std.specs.Ordering.{nat_cmp};
ghost use Rattle.std.specs.Hash as fed;
ghost use Rattle.std.specs.Cmp.Lexicographic.{pointwise, slice_cmp, nat_list_eq_equiv, nat_list_cmp_total, texts_ties, texts_po};
ghost use Rattle.std.specs.Cmp.{partial_equiv_from_equiv};
ghost use Rattle.std.specs.Cmp.Rules.{hashing};
ghost use Rattle.std.proofs.Common.{rules};
ghost use Rattle.stream_case.specs.Name.{IsName, IsDottedName, IsAnyName, is_name, is_name_byte};

use std::cmp::Ordering;
use std::fmt;
use std::hash::{Hash, Hasher};
use std::marker::Model;

/// A name, or a dotted name. A name has 1 to 16 bytes out of ASCII letters, digits, `_` and `-`, and
/// begins with a letter or a digit; a dotted name is `.` and a name, and only branches of a network
/// have one (this project's rule). A contract sees it as its bytes.
#[derive(Clone, Copy)]
pub struct Name {
    // The name's bytes, and zeros after them.
    bytes: [u8; 17],
    len: u8,
}

impl Model for Name {
    ghost use Rattle.std.specs.Prelude.{List, ℕ, take, ◌-◌, ◌++◌, length, replicate};
    ghost use Rattle.stream_case.specs.Name.{IsStored, length-view, padded-view};

    ghost Value = { List ℕ };

    ghost view = { λ a. take a.len a.bytes };

    ghost invariant = { λ a. IsStored a.bytes a.len };

    ghost inverse = { λ s. record { bytes = s ++ replicate (17 - length s) 0; len = length s } };

    ghost inverse_ok = { λ a h i. record { bytes = padded-view a.bytes a.len h i; len = length-view a.bytes a.len h i } };
}

/// Whether a byte may stand in a name behind the first one.
fn is_name_byte(byte: u8) -> bool
    ensures { result ≡ is_name_byte byte }
{
    byte.is_ascii_alphanumeric() || byte == b'_' || byte == b'-'
}

fn is_name(bytes: &[u8]) -> bool
    ensures { IsTrue result ↔ IsName bytes.now }
{
    match bytes {
        [first, rest @ ..] => {
            first.is_ascii_alphanumeric()
                && rest.len() <= 15
                && rest.iter().all(|byte| is_name_byte(*byte))
        }
        [] => false,
    }
}

fn is_dotted_name(bytes: &[u8]) -> bool
    ensures { IsTrue result ↔ IsDottedName bytes.now }
{
    match bytes {
        [b'.', rest @ ..] => is_name(rest),
        _ => false,
    }
}

fn is_any_name(bytes: &[u8]) -> bool
    ensures { IsTrue result ↔ IsAnyName bytes.now }
{
    if is_name(bytes) {
        return true;
    }
    is_dotted_name(bytes)
}

impl Name {
    /// The name of these bytes, if they are a name or a dotted name.
    pub fn new(bytes: &[u8]) -> Option<Name>
        ensures { SomeIff result (IsAnyName bytes.now) bytes.now }
    {
        if !is_any_name(bytes) {
            return None;
        }
        let mut stored = [0u8; 17];
        stored[..bytes.len()].copy_from_slice(bytes);
        Some(Name {
            bytes: stored,
            len: bytes.len() as u8,
        })
    }

    /// The name of these bytes, if they are a name without a dot before it.
    pub fn undotted(bytes: &[u8]) -> Option<Name>
        ensures some { is_some result ≡ is_name bytes.now }
        ensures value { IfSome result (λ name. name ≡ bytes.now) }
    {
        if !is_name(bytes) {
            return None;
        }
        Name::new(bytes)
    }

    /// Whether the name begins with `.`.
    pub fn is_dotted(&self) -> bool
        ensures { IsTrue result ↔ (slice_index self.now 0 ≡ 46) }
    {
        self.bytes[0] == b'.'
    }

    /// The bytes of the name.
    pub fn as_bytes(&self) -> &[u8]
        ensures value { result.now ≡ self.now }
        ensures grammar { IsAnyName self.now }
    {
        &self.bytes[..self.len as usize]
    }

    /// The name as a text; its bytes are ASCII.
    pub fn as_str(&self) -> &str
        ensures { result.now ≡ self.now }
    {
        str::from_utf8(self.as_bytes()).unwrap()
    }
}

impl fmt::Display for Name {
    ghost output = { λ name. Some name };

    fn fmt<W: fmt::Write>(&self, f: &mut fmt::Formatter<W>) -> fmt::Result {
        f.write_str(self.as_str())
    }
}

impl PartialEq for Name {
    ghost eq = { pointwise nat_eq };

    ghost laws = { partial_equiv_from_equiv nat_list_eq_equiv };

    fn eq(&self, other: &Name) -> bool {
        self.as_bytes() == other.as_bytes()
    }
}

impl Eq for Name {
    ghost laws = { nat_list_eq_equiv };
}

impl PartialOrd for Name {
    ghost partial_cmp = { λ x y. Some (slice_cmp nat_cmp x y) };

    ghost laws = { texts_po };

    fn partial_cmp(&self, other: &Name) -> Option<Ordering> {
        Some(self.cmp(other))
    }
}

impl Ord for Name {
    ghost cmp = { slice_cmp nat_cmp };

    ghost total = { nat_list_cmp_total };

    ghost matches_partial_cmp = { λ x y. refl };

    ghost matches_eq = { texts_ties };

    fn cmp(&self, other: &Name) -> Ordering {
        self.as_bytes().cmp(&other.as_bytes())
    }
}

impl Hash for Name {
    ghost hash_input = { fed.slice fed.u8 };

    ghost respects_eq = { Prim.search (hashing, rules) };

    fn hash<H: Hasher>(&self, state: &mut H) {
        self.as_bytes().hash(state);
    }
}

impl fmt::Debug for Name {
    fn fmt<W: fmt::Write>(&self, f: &mut fmt::Formatter<W>) -> fmt::Result {
        f.debug_list().entries(self.as_bytes()).finish()
    }
}
