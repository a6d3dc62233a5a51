//! The fields that name branches and exchangers.

ghost use Rattle.std.specs.Prelude.{◌≡◌, is_some, IfSome};
ghost use Rattle.first_fault.specs.Checks.{Checked};
ghost use Rattle.network_text.specs.Given.{branch_at, branch_named, exchanger_at, exchanger_named};
ghost use Rattle.network_text.specs.Checks.{mixed_checks, new_branch_checks, new_exchanger_checks, passed_checks, used_branch_checks};

use crate::fault::NetWhy;
use crate::given::Given;
use crate::names::{branch_name, exchanger_name};
use stream_case::Name;

/// The number of the branch with this name, if it was made.
#[tactic(auto, unfolding(crate::specs::Given::branch_at))]
fn known_branch(given: &Given, name: &[u8]) -> Option<u32>
    ensures some { is_some result ≡ is_some (branch_named given.now.network name.now) }
    ensures value { IfSome result (λ number. number ≡ branch_at given.now.network name.now) }
{
    given.branch_named(name)
}

/// The number of the exchanger with this name, if it was declared.
#[tactic(auto, unfolding(crate::specs::Given::exchanger_at))]
fn known_exchanger(given: &Given, name: &[u8]) -> Option<u32>
    ensures some { is_some result ≡ is_some (exchanger_named given.now.network name.now) }
    ensures value { IfSome result (λ number. number ≡ exchanger_at given.now.network name.now) }
{
    given.exchanger_named(name)
}

/// The number of a branch that is used.
#[tactic(auto, unfolding(crate::specs::Checks::used_branch_checks))]
pub fn used_branch(given: &Given, field: &[u8]) -> Result<u32, NetWhy>
    ensures { Checked (used_branch_checks given.now.network field.now) (λ number.
        number ≡ branch_at given.now.network field.now) result }
{
    let Some(number) = known_branch(given, field) else {
        return Err(NetWhy::UnknownBranch);
    };
    if given.is_used(number) {
        return Err(NetWhy::SpentBranch);
    }
    Ok(number)
}

/// The name of a branch that is made.
#[tactic(auto, unfolding(crate::specs::Checks::new_branch_checks))]
pub fn new_branch(given: &Given, field: &[u8]) -> Result<Name, NetWhy>
    ensures { Checked (new_branch_checks given.now.network field.now) (λ name.
        name ≡ field.now) result }
{
    let Some(name) = branch_name(field) else {
        return Err(NetWhy::BadName);
    };
    if given.branch_named(field).is_some() {
        return Err(NetWhy::SameName);
    }
    Ok(name)
}

/// The name of an exchanger that is declared.
#[tactic(auto, unfolding(crate::specs::Checks::new_exchanger_checks))]
pub fn new_exchanger(given: &Given, field: &[u8]) -> Result<Name, NetWhy>
    ensures { Checked (new_exchanger_checks given.now.network field.now) (λ name.
        name ≡ field.now) result }
{
    let Some(name) = exchanger_name(field) else {
        return Err(NetWhy::BadName);
    };
    if given.exchanger_named(field).is_some() {
        return Err(NetWhy::SameName);
    }
    Ok(name)
}

/// The number of an exchanger that a branch passes.
#[tactic(auto, unfolding(crate::specs::Checks::passed_checks))]
pub fn passed_exchanger(given: &Given, branch: u32, field: &[u8]) -> Result<u32, NetWhy>
    ensures { Checked (passed_checks given.now.network branch field.now) (λ exchanger.
        exchanger ≡ exchanger_at given.now.network field.now) result }
{
    let Some(exchanger) = known_exchanger(given, field) else {
        return Err(NetWhy::UnknownName);
    };
    if !given.is_free_side(exchanger, given.stream_of(branch)) {
        return Err(NetWhy::WrongPass);
    }
    Ok(exchanger)
}

/// Tests that two branches are two, and of one stream.
#[tactic(auto, unfolding(crate::specs::Checks::mixed_checks))]
pub fn check_mixed(given: &Given, first: u32, second: u32) -> Result<(), NetWhy>
    ensures { Checked (mixed_checks given.now.network first second) (λ _. Unit {0}) result }
{
    if second == first {
        return Err(NetWhy::SpentBranch);
    }
    if given.stream_of(first) != given.stream_of(second) {
        return Err(NetWhy::OtherStream);
    }
    Ok(())
}
