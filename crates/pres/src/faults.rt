//! Why a unit is not bound.

ghost use Rattle.std.specs.Prelude.{◌≡◌, ◌<◌, nat_lt, length, map};
ghost use Rattle.std.specs.List.{list_any, AllByRecursion};
ghost use Rattle.kit_base.specs.Limits.{deepest};
ghost use Rattle.aoi.specs.Plain.{PlainRaise, PlainInterface, plain_raise, plain_operation, plain_interface};
ghost use Rattle.pres.specs.declared.ops.Op.{Op as OpRecord};
ghost use Rattle.pres.specs.declared.sizes.Size.{Size as SizeRecord};
ghost use Rattle.pres.specs.Faults.{is_long, has_long, has_long_in};
ghost use Rattle.pres.specs.Sizes.{is_over};

use crate::Op;
use crate::sizes::Size;
use aoi::{Interface, Operation, Raise};
use kit_base::Name;
use kit_base::limits::{DEEPEST, LONGEST_NAME, MOST_OPERATION_NODES, MOST_UNIT_NODES};
use kit_shared::Shared;

fn is_long(name: &Shared<Name>) -> bool
    ensures { result ≡ is_long name.now }
{
    name.len() > LONGEST_NAME
}

fn is_long_id(raises: &[Raise]) -> bool
    ensures { result ≡ list_any (λ (r : PlainRaise). is_long r.id) (map plain_raise raises.now) }
{
    for raise in raises {
        if raise.id.get().is_longer(LONGEST_NAME) {
            return true;
        }
    }
    false
}

fn has_long(op: &Operation) -> bool
    ensures { result ≡ has_long (plain_operation op.now) }
{
    is_long(&op.name) || is_long_id(op.raises.as_slice())
}

fn is_long_in(ops: &[Operation]) -> bool
    ensures { result ≡ list_any has_long (map plain_operation ops.now) }
{
    for op in ops {
        if has_long(op) {
            return true;
        }
    }
    false
}

fn has_long_in(i: &Interface) -> bool
    ensures { result ≡ has_long_in (plain_interface i.now) }
{
    is_long(&i.name) || is_long_in(i.ops.as_slice())
}

/// Whether a name or an id is too long.
pub(crate) fn has_long_names(interfaces: &[Interface]) -> bool
    ensures { result ≡ list_any has_long_in (map plain_interface interfaces.now) }
{
    for i in interfaces {
        if has_long_in(i) {
            return true;
        }
    }
    false
}

/// Whether a type has too many levels.
pub(crate) fn is_deep(sizes: &[Size]) -> bool
    ensures { result ≡ list_any (λ (s : SizeRecord). nat_lt deepest s.depth) sizes.now }
{
    for size in sizes {
        if size.depth > DEEPEST {
            return true;
        }
    }
    false
}

/// Whether the messages of an operation, or of all, spread over too many nodes.
pub(crate) fn is_over(sizes: &[Size], ops: &[Op]) -> bool
    requires { AllByRecursion
        (λ (o : OpRecord). (o.request < length sizes.now) × (o.reply < length sizes.now)) ops.now }
    ensures { result ≡ is_over sizes.now ops.now }
{
    let mut total: u64 = 0;
    for op in ops {
        let request = u64::from(sizes[op.request as usize].nodes);
        let reply = u64::from(sizes[op.reply as usize].nodes);
        if request + reply > MOST_OPERATION_NODES {
            return true;
        }
        total = (total + request + reply).min(MOST_UNIT_NODES + 1);
    }
    total > MOST_UNIT_NODES
}
