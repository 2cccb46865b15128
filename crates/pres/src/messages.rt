//! The nodes of messages.

ghost use Rattle.std.specs.Prelude.{◌≡◌, ◌+◌, ◌==◌, ◌<◌, ◌++◌, map, length, pos, IfOk, IfErr, OnOk, IsTrue, None};
ghost use Rattle.std.specs.List.{AllByRecursion, list_any};
ghost use Rattle.aoi.specs.Plain.{PlainOperation, plain_raise, plain_operation, plain_interface};
ghost use Rattle.aoi.specs.Shapes.{members};
ghost use Rattle.pres.specs.Drafts.{Grows, IsDrawn, AreArms, Overflows, drawn, known, is_drawable, are_drawable, IsDrawableOperation, IsOffered, AreOffered};
ghost use Rattle.pres.specs.Faces.{arm, at};
ghost use Rattle.pres.specs.Made.{made_request, made_answer, made_raised, made_reply, made_by};
ghost use Rattle.pres.specs.Offers.{exception, request_of, answer_of, reply_of, raised, offer, offer_at, is_cdr, is_xdr, gets_null, null_operation};

use crate::draft::Draft;
use crate::{BindErr, Op, Ops, Shape};
use aoi::{Fields, Interface, Operation, Raise, Raises, Ty};
use kit_base::{Name, NoMemory};
use kit_shared::Shared;
use mint::kind::Kind;
use mint::node::{Arms, Node, NodeIds, Tag};
use mint::table::NodeId;
use std::alloc::Global;
use wire_def::Back;

/// Whether messages of the back end have exceptions, and every operation a reply.
pub(crate) fn is_cdr(back: Back) -> bool
    ensures { result ≡ is_cdr back }
{
    matches!(back, Back::CdrBig | Back::CdrLittle)
}

fn is_xdr(back: Back) -> bool
    ensures { result ≡ is_xdr back }
{
    matches!(back, Back::Xdr)
}

/// Whether one of the operations is procedure 0.
fn has_null(ops: &[Operation]) -> bool
    ensures { result ≡ list_any (λ (op : PlainOperation). op.proc_no == 0) (map plain_operation ops.now) }
{
    for op in ops {
        if op.proc_no == 0 {
            return true;
        }
    }
    false
}

/// Whether an interface gets procedure 0 over a back end.
pub fn gets_null(back: Back, i: &Interface) -> bool
    ensures { result ≡ gets_null back (plain_interface i.now) }
{
    is_xdr(back) && !has_null(i.ops.as_slice())
}

/// Procedure 0, which takes nothing and answers nothing.
pub(crate) fn null_operation(alloc: Global) -> Result<Operation, NoMemory>
    ensures { IfOk result (λ op. plain_operation op ≡ null_operation) }
{
    let mut name = Name::new(alloc);
    name.append(b"0")?;
    Ok(Operation {
        name: Shared::new(alloc, name)?,
        proc_no: 0,
        slot: 0,
        ins: Shared::new(alloc, Fields::new(alloc))?,
        outs: Shared::new(alloc, Fields::new(alloc))?,
        result: Shared::new(alloc, Ty::Void)?,
        raises: Shared::new(alloc, Raises::new(alloc))?,
        oneway: false,
    })
}

/// The number of the k-th exception's arm, where the answer has arm 0.
fn arm_number(k: usize) -> i128
    ensures { result ≡ pos (1 + k) }
{
    k as i128 + 1
}

impl Draft {
    /// Draws what goes in.
    fn draw_request(&mut self, alloc: Global, op: &Operation) -> Result<NodeId, BindErr>
        requires { IsTrue (are_drawable (length (known self.old)) (members op.now.ins)) }
        ensures grows { OnOk result
            (Grows self.old self.new (made_request (known self.old) (plain_operation op.now))) }
        ensures id { IfOk result
            (λ id. IsDrawn self.new id (request_of (known self.old) (plain_operation op.now))) }
        ensures cause { IfErr result
            (λ e. Overflows (drawn self.old ++ made_request (known self.old) (plain_operation op.now)) e) }
    {
        let ids = self.draw_fields(alloc, op.ins.as_slice())?;
        self.push(Node::Group(ids), Shape::Plain)
    }

    /// Draws the result, and the parameters out.
    fn draw_answer(&mut self, alloc: Global, op: &Operation) -> Result<NodeId, BindErr>
        requires { IsDrawableOperation (length (known self.old)) (plain_operation op.now) }
        ensures grows { OnOk result
            (Grows self.old self.new (made_answer (known self.old) (plain_operation op.now))) }
        ensures id { IfOk result
            (λ id. IsDrawn self.new id (answer_of (known self.old) (plain_operation op.now))) }
        ensures cause { IfErr result
            (λ e. Overflows (drawn self.old ++ made_answer (known self.old) (plain_operation op.now)) e) }
    {
        let id = self.draw(alloc, op.result.get())?;
        let outs = self.draw_fields(alloc, op.outs.as_slice())?;
        let mut ids = NodeIds::new(alloc);
        ids.push(id)?;
        ids.append(outs.as_slice())?;
        self.push(Node::Group(ids), Shape::Plain)
    }

    /// Draws exceptions, and gives the arms of an answer and of them.
    fn draw_raises(
        &mut self,
        alloc: Global,
        answer: NodeId,
        raises: &[Raise],
    ) -> Result<Arms, BindErr>
        requires answer { answer < length (drawn self.old) }
        requires raises { AllByRecursion (λ r. IsTrue (is_drawable (length (known self.old)) (exception r)))
            (map plain_raise raises.now) }
        ensures grows { OnOk result
            (Grows self.old self.new (made_raised (known self.old) (map plain_raise raises.now))) }
        ensures arms { IfOk result (λ arms. AreArms self.new arms None (arm (pos 0)
            (at (drawn self.old) answer) (raised (known self.old) 1 (map plain_raise raises.now)))) }
        ensures cause { IfErr result
            (λ e. Overflows (drawn self.old ++ made_raised (known self.old) (map plain_raise raises.now)) e) }
    {
        let mut arms = Arms::new(alloc);
        arms.push((0, answer))?;
        for (k, raise) in raises.iter().enumerate() {
            let id = self.draw_exception(alloc, &raise.members)?;
            arms.push((arm_number(k), id))?;
        }
        Ok(arms)
    }

    /// Draws what comes back.
    fn draw_reply(&mut self, alloc: Global, op: &Operation) -> Result<NodeId, BindErr>
        requires { IsDrawableOperation (length (known self.old)) (plain_operation op.now) }
        ensures grows { OnOk result
            (Grows self.old self.new (made_reply (known self.old) (plain_operation op.now))) }
        ensures id { IfOk result
            (λ id. IsDrawn self.new id (reply_of (known self.old) (plain_operation op.now))) }
        ensures cause { IfErr result
            (λ e. Overflows (drawn self.old ++ made_reply (known self.old) (plain_operation op.now)) e) }
    {
        let answer = self.draw_answer(alloc, op)?;
        let arms = self.draw_raises(alloc, answer, op.raises.as_slice())?;
        self.push(Node::Choice(Tag::Num(Kind::U32), arms, None), Shape::Plain)
    }

    /// Draws the messages of an operation of the k-th interface.
    pub(crate) fn draw_operation(
        &mut self,
        alloc: Global,
        back: Back,
        k: u32,
        op: &Operation,
    ) -> Result<Op, BindErr>
        requires { IsDrawableOperation (length (known self.old)) (plain_operation op.now) }
        ensures grows { OnOk result
            (Grows self.old self.new (made_request (known self.old) (plain_operation op.now)
            ++ made_reply (known self.old) (plain_operation op.now))) }
        ensures op { IfOk result
            (λ o. IsOffered self.new o (offer (known self.old) back k (plain_operation op.now))) }
        ensures cause { IfErr result (λ e. Overflows
            (drawn self.old ++ (made_request (known self.old) (plain_operation op.now)
            ++ made_reply (known self.old) (plain_operation op.now))) e) }
    {
        let name = op.name.share()?;
        let request = self.draw_request(alloc, op)?;
        let reply = self.draw_reply(alloc, op)?;
        let has_reply = is_cdr(back) || !op.oneway;
        Ok(Op {
            interface: k,
            name,
            request,
            reply,
            has_reply,
        })
    }

    /// Draws the messages of operations of the k-th interface.
    pub(crate) fn draw_operations(
        &mut self,
        alloc: Global,
        back: Back,
        k: u32,
        ops: &[Operation],
        list: &mut Ops,
    ) -> Result<(), BindErr>
        requires ops { AllByRecursion (IsDrawableOperation (length (known self.old)))
            (map plain_operation ops.now) }
        requires offered { AreOffered self.old list.old (map (offer_at (drawn self.old)) list.old) }
        ensures grows { OnOk result
            (Grows self.old self.new (made_by (known self.old) (map plain_operation ops.now))) }
        ensures offers { OnOk result (AreOffered self.new list.new (map (offer_at (drawn self.old)) list.old
            ++ map (offer (known self.old) back k) (map plain_operation ops.now))) }
        ensures cause { IfErr result
            (λ e. Overflows (drawn self.old ++ made_by (known self.old) (map plain_operation ops.now)) e) }
    {
        for op in ops {
            let op = self.draw_operation(alloc, back, k, op)?;
            list.push(op)?;
        }
        Ok(())
    }
}
