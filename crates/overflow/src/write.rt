// Chains written.
ghost use Rattle.std.specs.Prelude.{◌≡◌, ◌+◌, ◌-◌, ◌<◌, ◌≤◌, length, take, drop, IsOkAnd};
ghost use Rattle.page_spec.specs.Bytes.{u32_at};
ghost use Rattle.page_face.specs.PageCalls.{HasPut};
ghost use Rattle.overflow.specs.Writing.{HasWrittenChain};

use crate::read::page_buffer;
use be_fields::put_u32;
use page_face::{EditPages, FetchFault};
use std::alloc::{AllocError, Global};

/// Writes a new chain of just these bytes, and answers the number of its first page, 0 where there are no bytes.
///
/// The pages get their numbers in the chain's order, and each is put once, with zeros behind its content. `Size` comes exactly where
/// [`fresh`](EditPages::fresh) answers it, and `Corrupt` only where the freelist isn't in order. After an error only pages that were free have
/// changed, and page 1 in its freelist fields. Without bytes nothing is done; else one buffer of a page is taken.
pub fn write_chain<P: EditPages>(
    alloc: Global,
    pages: &mut P,
    bytes: &[u8],
) -> Result<u32, FetchFault>
    requires ready { P.ready pages.old }
    ensures written { HasWrittenChain P.PagesTells pages.old bytes.now result pages.new }
    ensures none { length bytes.now ≡ 0 → IsOkAnd result (λ first. first ≡ 0) × (pages.new ≡ pages.old) }
{
    if bytes.is_empty() {
        return Ok(0);
    }
    let mut buf = match page_buffer(alloc, pages.page_size()) {
        Ok(buf) => buf,
        Err(why) => return Err(why),
    };
    write_chain_with(pages, bytes, buf.as_mut_slice())
}

/// The same with a buffer of one page that is handed in, whose bytes have no meaning afterwards.
pub fn write_chain_with<P: EditPages>(
    pages: &mut P,
    bytes: &[u8],
    buf: &mut [u8],
) -> Result<u32, FetchFault>
    requires ready { P.ready pages.old }
    requires room { length buf.old ≡ P.page_size pages.old }
    ensures written { HasWrittenChain P.PagesTells pages.old bytes.now result pages.new }
    ensures none { length bytes.now ≡ 0 → IsOkAnd result (λ first. first ≡ 0) × (pages.new ≡ pages.old) }
    ensures room { length buf.new ≡ length buf.old }
{
    if bytes.is_empty() {
        return Ok(0);
    }
    write_pages(pages, bytes, buf)
}

// Writes the pages of some bytes. The next page is made before one is put, since that one names it.
fn write_pages<P: EditPages>(pages: &mut P, bytes: &[u8], buf: &mut [u8]) -> Result<u32, FetchFault>
    requires ready { P.ready pages.old }
    requires some { 0 < length bytes.now }
    requires room { length buf.old ≡ P.page_size pages.old }
    ensures written { HasWrittenChain P.PagesTells pages.old bytes.now result pages.new }
    ensures room { length buf.new ≡ length buf.old }
{
    let most = pages.usable() - 4;
    let first = match pages.fresh() {
        Ok(first) => first,
        Err(why) => return Err(why),
    };
    let mut page = first;
    let mut rest = bytes;
    'pages: while rest.len() > most {
        let next = match pages.fresh() {
            Ok(next) => next,
            Err(why) => return Err(why),
        };
        let (piece, behind) = rest.split_at(most);
        match put_link(pages, page, next, piece, buf) {
            Ok(()) => (),
            Err(why) => return Err(why),
        }
        page = next;
        rest = behind;
    }
    match put_link(pages, page, 0, rest, buf) {
        Ok(()) => Ok(first),
        Err(why) => Err(why),
    }
}

// Puts a page of a chain.
fn put_link<P: EditPages>(
    pages: &mut P,
    page: u32,
    next: u32,
    piece: &[u8],
    buf: &mut [u8],
) -> Result<(), FetchFault>
    requires ready { P.ready pages.old }
    requires page { (1 ≤ page) × (page ≤ P.last_page pages.old) }
    requires room { length buf.old ≡ P.page_size pages.old }
    requires fits { 4 + length piece.now ≤ length buf.old }
    ensures next { u32_at buf.new 0 ≡ next }
    ensures piece { take (length piece.now) (drop 4 buf.new) ≡ piece.now }
    ensures put { HasPut P.PagesTells pages.old page buf.new result pages.new }
    ensures room { length buf.new ≡ length buf.old }
{
    lay_link(buf, next, piece);
    pages.put(page, buf)
}

// Lays a page of a chain: the number of the next page, content, and zeros to the end.
fn lay_link(buf: &mut [u8], next: u32, piece: &[u8])
    requires { 4 + length piece.now ≤ length buf.old }
    ensures next { u32_at buf.new 0 ≡ next }
    ensures piece { take (length piece.now) (drop 4 buf.new) ≡ piece.now }
    ensures room { length buf.new ≡ length buf.old }
{
    buf.fill(0);
    lay_content(buf, piece);
    put_u32(buf, 0, next);
}

// Lays content behind the first four bytes.
fn lay_content(buf: &mut [u8], piece: &[u8])
    requires { 4 + length piece.now ≤ length buf.old }
    ensures piece { take (length piece.now) (drop 4 buf.new) ≡ piece.now }
    ensures room { length buf.new ≡ length buf.old }
{
    buf[4..4 + piece.len()].copy_from_slice(piece);
}
