//! The table of a unit.

ghost use Rattle.std.specs.Prelude.{◌≡◌, ◌≢◌, ◌∷◌, [], ◌++◌, List, IfOk, IfErr, OnOk, Some, None, Err, true, false};
ghost use Rattle.std.specs.List.{list_any, list_all};
ghost use Rattle.mint.specs.declared.kind.Kind.TheVariants.{I32};
ghost use Rattle.mint.specs.Kinds.{in_range};
ghost use Rattle.mint.specs.Sound.{refusal};
ghost use Rattle.mint.specs.Types.{Ty, level};
ghost use Rattle.mint.specs.declared.errors.MintErr.{MintErr as Refusal};
ghost use Rattle.mint.specs.declared.errors.MintErr.TheVariants.{Heavy as MintHeavy};
ghost use Rattle.pres.specs.Drafts.{drawn};
ghost use Rattle.pres.specs.Faults.{is_deep, is_heavy};
ghost use Rattle.pres.specs.Named.{AreNamed};
ghost use Rattle.pres.specs.Regular.{is_ranged, AreRegular};

use crate::draft::{Draft, Entry};
use crate::{BindErr, Pres};
use mint::errors::MintErr;
use mint::node::{Node, Tag};
use mint::table::Mint;
use std::alloc::Global;

/// Labels are in range by their type. That is known of a label once it is read, and the loop is for
/// nothing else.
#[tactic(auto, using(mint::proofs::Measuring::ranged_labels))]
fn are_ranged(labels: &[i32])
    ensures { list_all (in_range I32) labels.now ≡ true }
{
    for label in labels {
        let _label = *label;
    }
}

/// The labels of a node are in range by their type.
fn is_ranged(node: &Node)
    ensures { (ts : List Ty) → is_ranged (level ts node.now) ≡ true }
{
    match node {
        Node::Enum(labels) => are_ranged(labels.as_slice()),
        Node::Choice(Tag::Enum(labels), _, _) => are_ranged(labels.as_slice()),
        _ => {}
    }
}

/// What is reported of a unit where a table refuses a node as too heavy, or has no memory. It takes no memory.
fn reported(refused: MintErr) -> BindErr
    requires { (refused ≢ MintErr.NoMemory) → refused ≡ MintHeavy }
    ensures heavy { refused ≡ MintHeavy → result ≡ BindErr.Heavy }
    ensures memory { refused ≡ MintErr.NoMemory → result ≡ BindErr.NoMemory }
{
    match refused {
        MintErr::Heavy => BindErr::Heavy,
        MintErr::NoMemory => BindErr::NoMemory,
        _ => unreachable!(),
    }
}

/// Puts a node into a table that refuses it as too heavy alone.
fn add(mint: &mut Mint, node: Node) -> Result<(), BindErr>
    requires { (e : Refusal) → refusal mint.old node ≡ Some e → e ≡ MintHeavy }
    ensures ok { OnOk result (mint.new ≡ mint.old ++ node ∷ []) }
    ensures taken { OnOk result (refusal mint.old node ≡ None) }
    ensures cause { IfErr result
        (λ e. e ≢ BindErr.NoMemory → (e ≡ BindErr.Heavy) × (refusal mint.old node ≡ Some MintHeavy)) }
    ensures heavy { refusal mint.old node ≡ Some MintHeavy → result ≡ Err BindErr.Heavy }
{
    match mint.add(node) {
        Ok(_) => Ok(()),
        Err(refused) => Err(reported(refused)),
    }
}

impl Draft {
    /// The nodes as a table, and their shapes.
    pub(crate) fn build(self, alloc: Global) -> Result<(Mint, Pres), BindErr>
        // What may be built.
        requires regular { AreRegular (drawn self) }
        requires shallow { list_any is_deep (drawn self) ≡ false }
        // What is built.
        ensures nodes { IfOk result (λ r. r.0 ≡ self.nodes) }
        ensures shapes { IfOk result (λ r. r.1 ≡ self.shapes) }
        ensures named { IfOk result (λ r. AreNamed r.0 r.1) }
        // When it is not.
        ensures light { OnOk result (list_any is_heavy (drawn self) ≡ false) }
        ensures cause { IfErr result
            (λ e. e ≢ BindErr.NoMemory → (e ≡ BindErr.Heavy) × (list_any is_heavy (drawn self) ≡ true)) }
    {
        let mut mint = Mint::new(alloc);
        let mut pres = Pres::new(alloc);
        for entry in self.into_entries() {
            let Entry { node, shape } = entry;
            is_ranged(&node);
            add(&mut mint, node)?;
            pres.push(shape)?;
        }
        Ok((mint, pres))
    }
}
