//! Typedefs.

ghost use Rattle.std.specs.Prelude.{◌≡◌, None};
ghost use Rattle.idl_names.specs.Answers.{Gives};
ghost use Rattle.corba_shapes.specs.Held.{state};
ghost use Rattle.corba_shapes.specs.Forms.{single};
ghost use Rattle.corba_shapes.specs.Aliases.{aliased_on, alias_on, aliases_on, typedef_on};

use crate::enums::enum_;
use crate::fields::lengths;
use crate::forms::{Core, Form, form_tag, form_text, form_ty, single, type_form};
use crate::state::Shapes;
use crate::structs::struct_;
use crate::unions::union_;
use aoi::NameErr;
use corba_decls::{Aliased, Declarator, Typedef};
use idl_names::{Tag, Use};
use std::alloc::Global;

/// The type that is declared with this number, as one that is used.
fn declared_form(alloc: Global, k: u32, tag: Tag) -> Form
    ensures { result ≡ single (Core.Used (Use.Declared k tag) None) }
{
    single(alloc, Core::Used(Use::Declared(k, tag), None))
}

/// What gets a name: a type that is used, or one that is declared here.
fn aliased(alloc: Global, r: &mut Shapes, d: u32, of: &Aliased) -> Result<Form, NameErr>
    ensures { Gives (λ f. (state r.new, f)) result
        (aliased_on d (state r.old) of.now) }
{
    let k = r.next_type()?;
    match of {
        Aliased::Type(t) => type_form(alloc, &r.scopes, d, t),
        Aliased::Struct(t) => {
            struct_(alloc, r, d, t)?;
            Ok(declared_form(alloc, k, Tag::Other))
        }
        Aliased::Union(u) => {
            union_(alloc, r, d, u)?;
            Ok(declared_form(alloc, k, Tag::Other))
        }
        Aliased::Enum(e) => {
            enum_(alloc, r, d, e)?;
            Ok(declared_form(alloc, k, Tag::Enum(k)))
        }
    }
}

/// Declares a name of a type, with the lengths after it.
fn alias(
    alloc: Global,
    r: &mut Shapes,
    d: u32,
    form: &Form,
    declarator: &Declarator,
) -> Result<(), NameErr>
    ensures { Gives (λ _. state r.new) result
        (alias_on d form.now (state r.old) declarator.now) }
{
    let name = declarator.name.name.as_slice();
    r.scopes.refuse_clash(alloc, d, name)?;
    let counts = lengths(alloc, &r.scopes, d, declarator.dimensions.as_slice())?;
    let counts = counts.as_slice();
    let ty = form_ty(alloc, form, counts)?;
    r.declare_type(
        alloc,
        d,
        name,
        ty,
        form_tag(form, counts),
        form_text(form, counts),
    )
}

/// Declares names of a type.
fn aliases(
    alloc: Global,
    r: &mut Shapes,
    d: u32,
    form: &Form,
    list: &[Declarator],
) -> Result<(), NameErr>
    ensures { Gives (λ _. state r.new) result
        (aliases_on d form.now (state r.old) list.now) }
{
    for declarator in list {
        alias(alloc, r, d, form, declarator)?;
    }
    Ok(())
}

/// Declares what a typedef declares.
pub(crate) fn typedef(alloc: Global, r: &mut Shapes, d: u32, t: &Typedef) -> Result<(), NameErr>
    ensures { Gives (λ _. state r.new) result (typedef_on d (state r.old) t.now) }
{
    let form = aliased(alloc, r, d, &t.of)?;
    aliases(alloc, r, d, &form, t.declarators.as_slice())
}
