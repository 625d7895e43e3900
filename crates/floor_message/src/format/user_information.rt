//! BENEFICIARY-INFORMATION and REQUESTED-BY-INFORMATION: a user (RFC 8855, sections 5.2.14 and 5.2.16).

ghost use Rattle.std.specs.Prelude.{◌≡◌, ◌∷◌, [], option_map, IfOk, OnOk, ◌<◌, ℕ};
ghost use Rattle.floor_message.specs.Picked.{first, groups};
ghost use Rattle.floor_message.specs.Tell.{who_of};
ghost use Rattle.floor_message.specs.Written as spec;
ghost use Rattle.floor_message.specs.steps.Leaves.{Leaves};
ghost use Rattle.floor_message.specs.steps.Writing.{with_attrs};
ghost use Rattle.floor_wire.specs.Spelling.{format_of, IsWritable};
ghost use Rattle.floor_wire.specs.View.{attributes_of};
ghost use Rattle.floor_wire.specs.declared.format.Format.TheVariants.{Grouped};

use crate::format::group::{GROUP_HEAD, LONGEST_GROUP, first_group};
use crate::format::octets::{after_optional_octets, first_copied, put_octets};
use crate::information::Who;
use crate::kind::{USER_DISPLAY_NAME, USER_URI};
use floor_wire::{AttrsView, FrameBuilder};
use std::alloc::{AllocError, Global};

/// The user in the first group of the type.
pub(crate) fn first_who(
    alloc: Global,
    attrs: &AttrsView,
    kind: u8,
) -> Result<Option<Who>, AllocError>
    ensures { IfOk result (λ who. who ≡ option_map who_of (first (groups kind attrs.now))) }
{
    let Some((user, inside)) = first_group(attrs, kind) else {
        return Ok(None);
    };
    Ok(Some(Who {
        user,
        name: first_copied(alloc, &inside, USER_DISPLAY_NAME)?,
        uri: first_copied(alloc, &inside, USER_URI)?,
    }))
}

/// Adds the group of a user, where there is one.
pub(crate) fn put_who(out: &mut FrameBuilder, kind: u8, who: &Option<Who>) -> Result<(), AllocError>
    requires { IsWritable (attributes_of (spec.optional (spec.who_attr kind) who.now)) }
    ensures { OnOk result (out.new
        ≡ with_attrs out.old (spec.optional (spec.who_attr kind) who.now)) }
{
    if let Some(who) = who {
        put_user(out, kind, who)?;
    }
    Ok(())
}

/// Adds the group of a user.
fn put_user(out: &mut FrameBuilder, kind: u8, who: &Who) -> Result<(), AllocError>
    requires { IsWritable (attributes_of (spec.who_attr kind who.now ∷ [])) }
    ensures { OnOk result (out.new ≡ with_attrs out.old (spec.who_attr kind who.now ∷ [])) }
{
    let start = out.begin_group(kind, who.user)?;
    put_octets(out, USER_DISPLAY_NAME, &who.name)?;
    put_octets(out, USER_URI, &who.uri)?;
    out.end_group(start);
    Ok(())
}

/// What is left of the room behind the group of a user, where there is one.
pub(crate) fn after_who(room: usize, who: &Option<Who>) -> Option<usize>
    ensures { (kind : ℕ) → kind < 128 → format_of kind ≡ Grouped
        → Leaves (spec.optional (spec.who_attr kind) who.now) room result }
{
    match who {
        Some(who) => {
            // Read for its range: a User ID has 16 bits.
            let _user = who.user;
            let left = after_optional_octets(LONGEST_GROUP - GROUP_HEAD, &who.name)?;
            let left = after_optional_octets(left, &who.uri)?;
            room.checked_sub(LONGEST_GROUP - left)
        }
        None => Some(room),
    }
}
