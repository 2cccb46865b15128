//! Members of objects.

ghost use Rattle.std.specs.Prelude.{◌≡◌, ◌<◌, [], length, slice_index_or, false, option_map, string_bytes};
ghost use Rattle.std.specs.Option.{option_map_or};
ghost use Rattle.std.specs.List.{list_all};
ghost use Rattle.std.specs.BTreeMap.{keys};
ghost use Rattle.pres.specs.Faces.{sign_of};
ghost use Rattle.serde_json.specs.View.{view};
ghost use Rattle.serde_json.specs.Find.{get, as_object};
ghost use Rattle.json_shape.specs.Gives.{Gives};
ghost use Rattle.json_shape.specs.Presents.{is_arm, is_arm_key, members_in, tag_in};
ghost use Rattle.json_shape.specs.Texts.{text_of};

use crate::errors::ShapeErr;
use crate::scalars::sign;
use mint::node::Tag;
use pres::{FieldTable, Shape};
use serde_json::{Map, Value as Json};
use std::alloc::Global;

/// The member of the field at a place.
pub(crate) fn member<'a>(names: &FieldTable, i: usize, json: &'a Json) -> Option<&'a Json>
    requires { i < length names.now }
    ensures { option_map (λ j. view j.now) result
        ≡ get (text_of (slice_index_or names.now i [])) (view json.now) }
{
    json.get(names.text(i))
}

/// Whether the JSON is an object without members besides those of a choice.
pub(crate) fn has_arm_members(json: &Json) -> bool
    ensures { result ≡ option_map_or is_arm (as_object (view json.now)) false }
{
    let Some(members) = json.as_object() else {
        return false;
    };
    has_arm_keys(members)
}

/// Whether all members are those of a choice.
fn has_arm_keys(members: &Map<String, Json>) -> bool
    ensures { result ≡ list_all (λ k. is_arm_key (string_bytes k)) (keys members.now) }
{
    members.keys().all(|k| is_arm_key(k.as_str()))
}

/// Whether a choice may have a member of the key.
fn is_arm_key(key: &str) -> bool
    ensures { result ≡ is_arm_key key.now }
{
    key == "tag" || key == "value"
}

/// The number of the tag.
pub(crate) fn tag_in(alloc: Global, tag: &Tag, shape: &Shape, json: &Json) -> Result<i128, ShapeErr>
    ensures { Gives (λ n. n) result (tag_in (sign_of tag.now shape.now) (members_in (view json.now))) }
{
    match json.get("tag") {
        Some(found) => sign(alloc, tag, shape, found),
        None => Err(ShapeErr::Shape),
    }
}
