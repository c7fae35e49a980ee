//! Attributes that no operation's text has: what they say is what they are made of.
use crate::asserting::same;
use ir_context::Context;
use kit::{Kit, let_go};
use kit_ops::{KitAttr, KitAttrKind};
use std::alloc::{AllocError, Global};
use text_dialect::TextDialect;

/// The kinds of these attributes.
const KINDS: [KitAttrKind; 4] = [
    KitAttrKind::Note,
    KitAttrKind::Origin,
    KitAttrKind::SegmentSizes,
    KitAttrKind::GivenNames,
];

/// An attribute of one of these kinds. Of others there is none.
fn attribute(alloc: Global, kind: KitAttrKind) -> Result<Option<KitAttr>, AllocError> {
    match kind {
        KitAttrKind::Note => {
            let text = String::from_str(alloc, "kept \"as it is\"")?;
            Ok(Some(KitAttr::Note(text)))
        }
        KitAttrKind::Origin => {
            let text = String::from_str(alloc, "line 3")?;
            Ok(Some(KitAttr::Origin(text)))
        }
        KitAttrKind::SegmentSizes => {
            let sizes = Vec::from_slice(alloc, &[2, 0, u32::MAX])?;
            Ok(Some(KitAttr::SegmentSizes(sizes)))
        }
        KitAttrKind::GivenNames => {
            let names = vec![in alloc; None, None]?;
            Ok(Some(KitAttr::GivenNames(names)))
        }
        _ => Ok(None),
    }
}

/// Whether what an attribute says makes the same attribute, in a context of its own.
fn is_made_again(alloc: Global, attr: &KitAttr) -> Result<bool, AllocError> {
    let parts = Kit::attr_parts(alloc, attr)?;
    let mut ctx = Context::new(alloc);
    let made = Kit::make_attr(alloc, &mut ctx, attr.kind(), &parts);
    let_go(ctx);
    Ok(made.is_ok_and(|made| made == *attr))
}

/// The same of an attribute of a kind, if there is one.
fn is_kept(alloc: Global, kind: KitAttrKind) -> Result<bool, AllocError> {
    match attribute(alloc, kind)? {
        Some(attr) => is_made_again(alloc, &attr),
        None => Ok(false),
    }
}

#[test]
fn attributes_are_made_again(rt: HostRuntime) -> Result<(), AllocError> {
    for kind in &KINDS {
        same(&rt, is_kept(rt.alloc(), *kind)?, true);
    }
    Ok(())
}
