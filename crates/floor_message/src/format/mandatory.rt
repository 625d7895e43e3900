//! The attributes that a reader has to know and doesn't (RFC 8855, section 5.2.6.1).

ghost use Rattle.std.specs.Prelude.{◌≡◌, IfOk, OnOk};
ghost use Rattle.floor_message.specs.Picked.{distinct, mandatory, mandatory_inside, own_mandatory};
ghost use Rattle.floor_message.specs.steps.Adding.{add_all};
ghost use Rattle.floor_wire.specs.Seen.{body_seen};
ghost use Rattle.floor_wire.specs.Spelling.{is_known};
ghost use Rattle.floor_wire.specs.View.{attributes_of, content_of};

use floor_wire::{AttrView, AttrsView, BodyView};
use indexmap::IndexSet;
use std::alloc::{AllocError, Global};

/// Whether the protocol has attributes of the type.
fn is_known(kind: u8) -> bool
    ensures { result ≡ is_known kind }
{
    kind >= 1 && kind <= 18
}

fn add_own(found: &mut IndexSet<u8>, attr: &AttrView) -> Result<(), AllocError>
    ensures { OnOk result (found.new.keys
        ≡ add_all (λ n. n) found.old.keys (own_mandatory attr.now.kind attr.now.must)) }
{
    if attr.must && !is_known(attr.kind) {
        found.insert(attr.kind)?;
    }
    Ok(())
}

#[cycle(mandatory)]
fn add_inside(found: &mut IndexSet<u8>, body: &BodyView) -> Result<(), AllocError>
    ensures { OnOk result (found.new.keys
        ≡ add_all (λ n. n) found.old.keys
        (mandatory_inside (content_of (body_seen body.now)))) }
{
    match body {
        BodyView::Group(_, inside) => add_mandatory(found, inside),
        _ => Ok(()),
    }
}

#[cycle(mandatory)]
fn add_mandatory(found: &mut IndexSet<u8>, attrs: &AttrsView) -> Result<(), AllocError>
    ensures { OnOk result (found.new.keys
        ≡ add_all (λ n. n) found.old.keys (mandatory (attributes_of attrs.now))) }
{
    let mut rest = attrs.copy();
    while let Some(attr) = rest.next() {
        add_own(found, &attr)?;
        add_inside(found, &attr.body)?;
    }
    Ok(())
}

/// The types of the unknown attributes with M set, those inside groups too, each once, in order of
/// first appearance.
#[tactic(auto, using(crate::proofs::Once::once_by_added))]
pub(crate) fn mandatory_types(alloc: Global, attrs: &AttrsView) -> Result<Vec<u8>, AllocError>
    ensures { IfOk result (λ v. v.items ≡ distinct (mandatory (attributes_of attrs.now))) }
{
    let mut found = IndexSet::new(alloc);
    add_mandatory(&mut found, attrs)?;
    Vec::from_slice(alloc, found.as_slice())
}
