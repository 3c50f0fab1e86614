//! Heads and items are laid out.

ghost use Rattle.std.specs.Prelude.{◌≡◌, ◌<◌, ◌≤◌, ◌^◌, ◌++◌, ◌↔◌, ℕ, length, OnOk, OnErr, IfErr, IsErrOf};
ghost use Rattle.log_items.specs.Items.{head_bytes, header, item_bytes, StartsWith};

use crate::ItemErr;
use crate::header::{MOST, header_of};
use std::alloc::AllocError;

/// Puts the head of a file behind the bytes of `out`, with the mark that says closed or open. An error is `Memory`, and leaves
/// `out` as it was.
pub fn put_head(closed: bool, out: &mut Vec<u8>) -> Result<(), ItemErr>
    ensures ok { OnOk result (out.new.items ≡ out.old.items ++ head_bytes closed) }
    ensures err { OnErr result (out.new.items ≡ out.old.items) }
    ensures only { IfErr result (λ error. error ≡ ItemErr.Memory) }
{
    out.extend_from_slice(&head(closed))?;
    Ok(())
}

/// The head of a file, with the mark that says closed or open.
pub fn head(closed: bool) -> [u8; 8]
    ensures { result ≡ head_bytes closed }
{
    if closed {
        [1, 2, 3, 4, 99, 88, 77, 11]
    } else {
        [1, 2, 3, 4, 6, 7, 8, 9]
    }
}

/// Puts an item with this content behind the bytes of `out`. It is `TooLong` where the content has more than 2^28 bytes, and
/// never `Bad`. An error leaves `out` as it was.
pub fn put_item(content: &[u8], out: &mut Vec<u8>) -> Result<(), ItemErr>
    ensures ok { OnOk result (out.new.items ≡ out.old.items ++ item_bytes content.now) }
    ensures err { OnErr result (out.new.items ≡ out.old.items) }
    ensures long { IsErrOf result ItemErr.TooLong ↔ (2 ^ 28 < length content.now) }
    ensures never { (at : ℕ) → IsErrOf result (ItemErr.Bad at) → ⊥ }
{
    if content.len() > MOST as usize {
        return Err(ItemErr::TooLong);
    }
    let before = out.len();
    let put = put_parts(content, out);
    if put.is_err() {
        out.truncate(before);
        return Err(ItemErr::Memory);
    }
    Ok(())
}

// The header and the content. Where memory is wanting the header may stand there alone.
fn put_parts(content: &[u8], out: &mut Vec<u8>) -> Result<(), AllocError>
    requires { length content.now ≤ 2 ^ 28 }
    ensures ok { OnOk result (out.new.items ≡ out.old.items ++ item_bytes content.now) }
    ensures err { OnErr result (StartsWith out.old.items out.new.items) }
{
    put_header(content, out)?;
    out.extend_from_slice(content)
}

fn put_header(content: &[u8], out: &mut Vec<u8>) -> Result<(), AllocError>
    requires { length content.now ≤ 2 ^ 28 }
    ensures ok { OnOk result (out.new.items ≡ out.old.items ++ header content.now) }
    ensures err { OnErr result (out.new.items ≡ out.old.items) }
{
    out.extend_from_slice(&header_of(content))
}
