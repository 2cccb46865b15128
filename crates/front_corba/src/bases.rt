//! The operations of bases.

ghost use Rattle.std.specs.Prelude.{◌≡◌, nat_eq, false, map, option_copied, IfOk};
ghost use Rattle.std.specs.List.{list_any};
ghost use Rattle.std.specs.Option.{option_map};
ghost use Rattle.idl_names.specs.Answers.{Gives};
ghost use Rattle.front_corba.specs.Held.{plain_offer, plain_offering, heirs};
ghost use Rattle.front_corba.specs.Bases.{offer_clash, base_clash, inherited, inherited_on, all_joined_on, joined_on, interface_at, new_base, base_on, bases_on};

use crate::copies::share_operation;
use crate::named::{Guess, Offers};
use crate::offers::{add, case_clash};
use crate::state::{Heir, Offer, Offering};
use crate::{NameErr, NameFault};
use corba_scopes::{Meaning, Scopes, lower_of, refuse_fault};
use corba_syntax::Reference;
use idl_names::{add_number, fault, has_number};
use kit_base::NoMemory;
use std::alloc::Global;

/// Why the operation of a base may not be beside these, or nothing.
fn offer_clash(
    alloc: Global,
    ops: &Offers,
    guess: &mut Guess,
    offer: &Offer,
) -> Result<Option<NameFault>, NoMemory>
    ensures { IfOk result (λ f. f ≡ offer_clash (map plain_offer ops.now) (plain_offer offer.now)) }
{
    let Some(there) = ops.sought(alloc, guess, offer)? else {
        return case_clash(alloc, offer.operation.name.as_slice(), ops);
    };
    if there {
        return Ok(None);
    }
    Ok(Some(NameFault::Twice))
}

/// Why the operations of a base may not be beside these, or nothing.
fn base_clash(
    alloc: Global,
    ops: &Offers,
    guess: &mut Guess,
    base: &[Offer],
) -> Result<Option<NameFault>, NoMemory>
    ensures { IfOk result (λ f. f ≡ base_clash (map plain_offer ops.now) (map plain_offer base.now)) }
{
    match base {
        [offer, rest @ ..] => {
            let f = offer_clash(alloc, ops, guess, offer)?;
            let g = base_clash(alloc, ops, guess, rest)?;
            Ok(lower_of(f, g))
        }
        [] => Ok(None),
    }
}

/// Why the operations of a base may not be beside these, or nothing: beside none each of them may be.
fn clash_beside(
    alloc: Global,
    ops: &Offers,
    guess: &mut Guess,
    base: &[Offer],
) -> Result<Option<NameFault>, NoMemory>
    ensures { IfOk result (λ f. f ≡ base_clash (map plain_offer ops.now) (map plain_offer base.now)) }
{
    match ops.as_slice() {
        [] => Ok(None),
        [_, ..] => base_clash(alloc, ops, guess, base),
    }
}

/// Puts the operation of a base after the others, unless it is there.
fn inherit_one(
    alloc: Global,
    d: u32,
    ops: &mut Offers,
    guess: &mut Guess,
    offer: &Offer,
) -> Result<(), NameErr>
    ensures { Gives (λ _. map plain_offer ops.new) result
        (inherited d (map plain_offer ops.old) (plain_offer offer.now)) }
{
    if ops.is_there(alloc, guess, offer)? {
        return Ok(());
    }
    let same = share_operation(&offer.operation)?;
    add(alloc, d, offer.home, same, ops)
}

/// Puts the operations of a base after the others, without those that are there.
fn inherit(alloc: Global, d: u32, ops: &mut Offers, base: &[Offer]) -> Result<(), NameErr>
    ensures { Gives (λ _. map plain_offer ops.new) result
        (inherited_on d (map plain_offer ops.old) (map plain_offer base.now)) }
{
    let mut guess = Guess::new();
    for offer in base {
        inherit_one(alloc, d, ops, &mut guess, offer)?;
    }
    Ok(())
}

/// Puts the operations of a base after the others, or refuses them; of those that are there, the first are looked at once.
fn join_all(
    alloc: Global,
    d: u32,
    ops: &mut Offers,
    guess: &mut Guess,
    base: &[Offer],
) -> Result<(), NameErr>
    ensures { Gives (λ _. map plain_offer ops.new) result
        (all_joined_on d (map plain_offer ops.old) (map plain_offer base.now)) }
{
    let [offer, rest @ ..] = base else {
        return Ok(());
    };
    if ops.is_there(alloc, guess, offer)? {
        return join_all(alloc, d, ops, guess, rest);
    }
    let clash = clash_beside(alloc, ops, guess, base)?;
    refuse_fault(d, clash)?;
    inherit(alloc, d, ops, base)
}

/// Puts the operations of a base, if it is there, after the others, or refuses them.
fn join(alloc: Global, d: u32, ops: &mut Offers, base: Option<&Offering>) -> Result<(), NameErr>
    ensures { Gives (λ _. map plain_offer ops.new) result
        (joined_on d (map plain_offer ops.old) (option_map plain_offering (option_copied base.entry))) }
{
    let Some(base) = base else {
        return Ok(());
    };
    join_all(alloc, d, ops, &mut Guess::new(), base.ops.as_slice())
}

/// The number of an interface.
fn interface_at(d: u32, given: Option<Meaning>) -> Result<u32, NameErr>
    ensures value { Gives (λ x. x) result (interface_at d given) }
    ensures exact { result ≡ interface_at d given }
{
    match given {
        Some(Meaning::Interface(k)) => Ok(k),
        Some(_) => Err(fault(NameFault::NotType, d)),
        None => Err(fault(NameFault::Unknown, d)),
    }
}

/// Puts what a base has after what those before it have, where it is not one of them.
#[tactic(auto, using(crate::proofs::Getting::offering_got))]
fn new_base(
    alloc: Global,
    scopes: &mut Scopes,
    interfaces: &[Offering],
    d: u32,
    name: &[u8],
    heir: &mut Heir,
    reference: &Reference,
    k: u32,
) -> Result<(), NameErr>
    requires { list_any (nat_eq k) heir.old.numbers.keys ≡ false }
    ensures { Gives (λ _. heirs scopes.new heir.new) result (new_base d name.now
        (map plain_offering interfaces.now) (heirs scopes.old heir.old) reference.now k) }
{
    join(alloc, d, &mut heir.ops, interfaces.get(k as usize))?;
    scopes.inherit(alloc, name, &reference.name)?;
    add_number(&mut heir.numbers, k)?;
    Ok(())
}

/// Puts what a base has after what those before it have; one that comes again adds nothing.
fn base(
    alloc: Global,
    scopes: &mut Scopes,
    interfaces: &[Offering],
    d: u32,
    name: &[u8],
    heir: &mut Heir,
    reference: &Reference,
) -> Result<(), NameErr>
    ensures { Gives (λ _. heirs scopes.new heir.new) result (base_on d name.now
        (map plain_offering interfaces.now) (heirs scopes.old heir.old) reference.now) }
{
    let given = scopes.named(&reference.name);
    let k = interface_at(d, given)?;
    if has_number(&heir.numbers, k) {
        return Ok(());
    }
    new_base(alloc, scopes, interfaces, d, name, heir, reference, k)
}

/// Puts what bases of the interface by this name have after what those before them have.
pub(crate) fn bases(
    alloc: Global,
    scopes: &mut Scopes,
    interfaces: &[Offering],
    d: u32,
    name: &[u8],
    heir: &mut Heir,
    list: &[Reference],
) -> Result<(), NameErr>
    ensures { Gives (λ _. heirs scopes.new heir.new) result (bases_on d name.now
        (map plain_offering interfaces.now) (heirs scopes.old heir.old) list.now) }
{
    for reference in list {
        base(alloc, scopes, interfaces, d, name, heir, reference)?;
    }
    Ok(())
}
