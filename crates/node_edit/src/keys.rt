// Cells of interior pages, made of a page number and a key.
ghost use Rattle.std.specs.Prelude.{◌≡◌, ℕ, IfOk, false};
ghost use Rattle.node_spec.specs.declared.kinds.Kind.{Kind};
ghost use Rattle.node_spec.specs.Kinds.{is_leaf};
ghost use Rattle.node_edit.specs.Keys.{LeadsTo, IsKey, IsCellAbove};

use disk_face::Bytes;
use std::alloc::{AllocError, Global};

// A number in four bytes, the highest first, and bytes behind it.
#[tactic(auto, unfolding(page_spec::specs::Bytes::u32_at))]
pub(crate) fn numbered(alloc: Global, page: u32, key: &[u8]) -> Result<Vec<u8>, AllocError>
    ensures { IfOk result (λ text. LeadsTo page key.now text.items) }
{
    let mut text = Vec::from_slice(alloc, page.to_be_bytes().as_slice())?;
    text.extend_from_slice(key)?;
    Ok(text)
}

/// The interior cell for a page: its number in four bytes, the highest first, and behind it a key. The error is want of memory.
#[tactic(auto, using(crate::proofs::KeyLaws::key_leads))]
pub fn cell_above(alloc: Global, page: u32, key: &Bytes) -> Result<Bytes, AllocError>
    ensures leads { IfOk result (LeadsTo page key.now) }
    ensures cell { IfOk result (λ text. (kind : Kind) (usable : ℕ) → is_leaf kind ≡ false → IsKey kind usable key.now → IsCellAbove kind usable page text) }
{
    let text = numbered(alloc, page, key.bytes())?;
    Ok(Bytes::from_vec(text))
}
