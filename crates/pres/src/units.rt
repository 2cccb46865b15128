//! The nodes of a unit.

ghost use Rattle.std.specs.Prelude.{◌≡◌, ◌≤◌, [], ◌++◌, map, length, IfOk, IfErr, OnOk};
ghost use Rattle.std.specs.List.{AllByRecursion};
ghost use Rattle.aoi.specs.Plain.{plain, plain_interface};
ghost use Rattle.aoi.specs.Shapes.{shapes};
ghost use Rattle.pres.specs.Drafts.{Grows, Overflows, drawn, known, AreDrawable, IsDrawableInterface, IsDrawableUnit, AreOffered};
ghost use Rattle.pres.specs.Made.{made_by, made_in_types, made_in_interfaces, all_made};
ghost use Rattle.pres.specs.Offers.{faces_of, offer, offer_at, offers, offers_from, operations, gotten};

use crate::draft::Draft;
use crate::messages::{gets_null, null_operation};
use crate::{BindErr, Ops};
use aoi::{FullName, Interface, Ty, Unit};
use std::alloc::Global;
use wire_def::Back;

impl Draft {
    /// Draws procedure 0 of the k-th interface, if it gets one.
    fn draw_gotten(
        &mut self,
        alloc: Global,
        back: Back,
        k: u32,
        i: &Interface,
        list: &mut Ops,
    ) -> Result<(), BindErr>
        requires { AreOffered self.old list.old (map (offer_at (drawn self.old)) list.old) }
        ensures grows { OnOk result
            (Grows self.old self.new (made_by (known self.old) (gotten back (plain_interface i.now)))) }
        ensures offers { OnOk result (AreOffered self.new list.new (map (offer_at (drawn self.old)) list.old
            ++ map (offer (known self.old) back k) (gotten back (plain_interface i.now)))) }
        ensures cause { IfErr result (λ e. Overflows
            (drawn self.old ++ made_by (known self.old) (gotten back (plain_interface i.now))) e) }
    {
        if !gets_null(back, i) {
            return Ok(());
        }
        let null = null_operation(alloc)?;
        let op = self.draw_operation(alloc, back, k, &null)?;
        list.push(op)?;
        Ok(())
    }

    /// Draws the messages of the k-th interface.
    fn draw_interface(
        &mut self,
        alloc: Global,
        back: Back,
        k: u32,
        i: &Interface,
        list: &mut Ops,
    ) -> Result<(), BindErr>
        requires ops { IsDrawableInterface (length (known self.old)) (plain_interface i.now) }
        requires offered { AreOffered self.old list.old (map (offer_at (drawn self.old)) list.old) }
        ensures grows { OnOk result
            (Grows self.old self.new (made_by (known self.old) (plain_interface i.now).ops
            ++ made_by (known self.old) (gotten back (plain_interface i.now)))) }
        ensures offers { OnOk result (AreOffered self.new list.new (map (offer_at (drawn self.old)) list.old
            ++ map (offer (known self.old) back k) (operations back (plain_interface i.now)))) }
        ensures cause { IfErr result (λ e. Overflows
            (drawn self.old ++ (made_by (known self.old) (plain_interface i.now).ops
            ++ made_by (known self.old) (gotten back (plain_interface i.now)))) e) }
    {
        self.draw_operations(alloc, back, k, i.ops.as_slice(), list)?;
        self.draw_gotten(alloc, back, k, i, list)?;
        Ok(())
    }

    /// Draws the messages of interfaces.
    fn draw_interfaces(
        &mut self,
        alloc: Global,
        back: Back,
        interfaces: &[Interface],
    ) -> Result<Ops, BindErr>
        requires few { length interfaces.now ≤ 64 }
        requires interfaces { AllByRecursion (IsDrawableInterface (length (known self.old)))
            (map plain_interface interfaces.now) }
        ensures grows { OnOk result (Grows self.old self.new
            (made_in_interfaces (known self.old) back (map plain_interface interfaces.now))) }
        ensures offers { IfOk result (λ list. AreOffered self.new list
            (offers_from (known self.old) back 0 (map plain_interface interfaces.now))) }
        ensures cause { IfErr result (λ e. Overflows (drawn self.old
            ++ made_in_interfaces (known self.old) back (map plain_interface interfaces.now)) e) }
    {
        let mut list = Ops::new(alloc);
        for (k, i) in interfaces.iter().enumerate() {
            self.draw_interface(alloc, back, k as u32, i, &mut list)?;
        }
        Ok(list)
    }

    /// Draws the types of a unit, the first nodes.
    fn draw_types(&mut self, alloc: Global, types: &[(FullName, Ty)]) -> Result<(), BindErr>
        requires nodes { drawn self.old ≡ [] }
        requires types { known self.old ≡ [] }
        requires drawable { AreDrawable 0 (shapes types.now) }
        ensures nodes { OnOk result (drawn self.new ≡ made_in_types [] (shapes types.now)) }
        ensures types { OnOk result (known self.new ≡ faces_of [] (shapes types.now)) }
        ensures cause { IfErr result (λ e. Overflows (made_in_types [] (shapes types.now)) e) }
    {
        for (_, ty) in types {
            let id = self.draw(alloc, ty)?;
            self.name(id)?;
        }
        Ok(())
    }

    /// Draws the nodes of a unit, and gives its operations.
    pub(crate) fn draw_unit(
        &mut self,
        alloc: Global,
        unit: &Unit,
        back: Back,
    ) -> Result<Ops, BindErr>
        requires nodes { drawn self.old ≡ [] }
        requires types { known self.old ≡ [] }
        requires drawable { IsDrawableUnit (plain unit.now) }
        ensures nodes { OnOk result (drawn self.new ≡ all_made (plain unit.now) back) }
        ensures offers { IfOk result (λ list. AreOffered self.new list (offers (plain unit.now) back)) }
        ensures cause { IfErr result (λ e. Overflows (all_made (plain unit.now) back) e) }
    {
        let _few = unit.interface_count();
        self.draw_types(alloc, unit.types().as_slice())?;
        self.draw_interfaces(alloc, back, unit.interfaces().as_slice())
    }
}
