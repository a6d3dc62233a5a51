//! The names of branches and exchangers.

ghost use Rattle.std.specs.Prelude.{◌≡◌, true, IfSome, is_some};
ghost use Rattle.stream_case.specs.Name.{is_name};
ghost use Rattle.network_text.specs.Names.{is_branch_name};

use stream_case::Name;

/// The name that a field holds, if a branch may be called so: a name or a dotted name.
pub fn branch_name(field: &[u8]) -> Option<Name>
    ensures some { is_some result ≡ is_branch_name field.now }
    ensures value { IfSome result (λ name. name ≡ field.now) }
{
    Name::new(field)
}

/// The name that a field holds, if an exchanger may be called so: a name that is not dotted.
pub fn exchanger_name(field: &[u8]) -> Option<Name>
    ensures some { is_some result ≡ is_name field.now }
    ensures value { IfSome result (λ name. name ≡ field.now) }
    ensures name { IfSome result (λ name. is_branch_name name ≡ true) }
{
    Name::undotted(field)
}
