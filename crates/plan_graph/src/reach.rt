//! Which compartments reach which objects.

ghost use Rattle.std.specs.Prelude.{◌≡◌, ◌<◌, ◌&&◌, ◌||◌, nat_eq, length};
ghost use Rattle.plan_model.specs.Groups as sets;
ghost use Rattle.plan_model.specs.Lists.{has};
ghost use Rattle.plan_model.specs.Needs.{has_object, need_of};

use ir_model::object::ObjId;
use plan_model::groups::Groups;
use plan_model::needs::Needs;
use std::cmp::Ordering;

/// Whether an object is one of a list.
fn is_among(objects: &[ObjId], object: &ObjId) -> bool
    ensures { result ≡ has_object objects.now object.now }
{
    for i in 0..objects.len() {
        if let Ordering::Equal = objects[i].order(object) {
            return true;
        }
    }
    false
}

/// Whether a function stands in a compartment and may write an object.
fn writes_there(
    needs: &Needs,
    groups: &Groups,
    compartment: u32,
    object: &ObjId,
    func: usize,
) -> bool
    requires each { length groups.now.of ≡ length needs.now.funcs }
    requires func { func < length groups.now.of }
    ensures { result ≡ (nat_eq (sets.compartment_of groups.now func) compartment && has_object (need_of needs.now func).written object.now) }
{
    groups.of.as_slice()[func] == compartment
        && is_among(needs.funcs.as_slice()[func].written.as_slice(), object)
}

/// Whether a function stands in a compartment and may read an object.
fn reads_there(
    needs: &Needs,
    groups: &Groups,
    compartment: u32,
    object: &ObjId,
    func: usize,
) -> bool
    requires each { length groups.now.of ≡ length needs.now.funcs }
    requires func { func < length groups.now.of }
    ensures { result ≡ (nat_eq (sets.compartment_of groups.now func) compartment && has_object (need_of needs.now func).read object.now) }
{
    groups.of.as_slice()[func] == compartment
        && is_among(needs.funcs.as_slice()[func].read.as_slice(), object)
}

/// Whether a function of a compartment may write an object.
pub fn writes(needs: &Needs, groups: &Groups, compartment: u32, object: &ObjId) -> bool
    requires { length groups.now.of ≡ length needs.now.funcs }
    ensures { result ≡ sets.writes needs.now groups.now compartment object.now }
{
    for func in 0..groups.of.len() {
        if writes_there(needs, groups, compartment, object, func) {
            return true;
        }
    }
    false
}

/// Whether a function of a compartment may read an object.
pub fn reads(needs: &Needs, groups: &Groups, compartment: u32, object: &ObjId) -> bool
    requires { length groups.now.of ≡ length needs.now.funcs }
    ensures { result ≡ sets.reads needs.now groups.now compartment object.now }
{
    for func in 0..groups.of.len() {
        if reads_there(needs, groups, compartment, object, func) {
            return true;
        }
    }
    false
}

/// Whether a function of a compartment may write or read an object.
pub fn reaches(needs: &Needs, groups: &Groups, compartment: u32, object: &ObjId) -> bool
    requires { length groups.now.of ≡ length needs.now.funcs }
    ensures { result ≡ (sets.writes needs.now groups.now compartment object.now || sets.reads needs.now groups.now compartment object.now) }
{
    writes(needs, groups, compartment, object) || reads(needs, groups, compartment, object)
}

/// Whether a function stands in a compartment and may use a peripheral.
fn uses_there(needs: &Needs, groups: &Groups, compartment: u32, periph: u32, func: usize) -> bool
    requires each { length groups.now.of ≡ length needs.now.funcs }
    requires func { func < length groups.now.of }
    ensures { result ≡ (nat_eq (sets.compartment_of groups.now func) compartment && has (need_of needs.now func).periphs periph) }
{
    groups.of.as_slice()[func] == compartment
        && needs.funcs.as_slice()[func]
            .periphs
            .as_slice()
            .contains(&periph)
}

/// Whether a function of a compartment may use a peripheral.
pub fn uses(needs: &Needs, groups: &Groups, compartment: u32, periph: u32) -> bool
    requires { length groups.now.of ≡ length needs.now.funcs }
    ensures { result ≡ sets.uses needs.now groups.now compartment periph }
{
    for func in 0..groups.of.len() {
        if uses_there(needs, groups, compartment, periph, func) {
            return true;
        }
    }
    false
}
