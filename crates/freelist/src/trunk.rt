// The bytes of a trunk page.
ghost use Rattle.std.specs.Prelude.{◌≡◌, true, false, ℕ, ◌+◌, ◌*◌, ◌≤◌, ◌<◌, ◌∷◌, ◌++◌, List, Contains, length, OnOk, IfErr};
ghost use Rattle.page_spec.specs.Bytes.{u32_at};
ghost use Rattle.engine_spec.specs.declared.commits.FetchFault.TheVariants as fault;
ghost use Rattle.tree_spec.specs.Layout.{Each};
ghost use Rattle.tree_spec.specs.Freelist.{numbers_at, trunk_in, most_leaves, IsTrunk};
ghost use Rattle.freelist.specs.Walking.{IsOut, Misleads, ListsTooMany, IsBroken};
ghost use Rattle.freelist.specs.Changing.{Suits};

use be_fields::get_u32;
use page_face::FetchFault;

/// Where the numbers of the leaves begin.
pub(crate) const LEAVES: usize = 8;

// Whether a number isn't that of a page from 2 to the last one.
pub(crate) fn is_outside(number: u32, last: u32) -> bool
    ensures outside { result ≡ true → IsOut last number }
    ensures inside { result ≡ false → (2 ≤ number) × (number ≤ last) }
{
    number < 2 || number > last
}

// Whether a number doesn't fit how many pages are to come there.
pub(crate) fn misleads(number: u32, left: u32, last: u32) -> bool
    ensures wrong { result ≡ true → Misleads last left number }
    ensures right { result ≡ false → Suits last left number }
{
    if left == 0 {
        return number > 0;
    }
    is_outside(number, last)
}

// Whether a trunk lists more leaves than there is room for, or more than may be left.
pub(crate) fn lists_too_many(page: &[u8], usable: usize, left: u32) -> bool
    requires { 8 ≤ length page.now }
    ensures many { result ≡ true → ListsTooMany usable left (trunk_in page.now) }
    ensures few { result ≡ false → (u32_at page.now 4 ≤ most_leaves usable) × (u32_at page.now 4 < left) }
{
    let count = get_u32(page, 4);
    count as usize > (usable / 4).saturating_sub(2) || count >= left
}

// Whether the leaves that a trunk lists, so many, are pages from 2 to the last one.
fn are_inside(page: &[u8], count: usize, last: u32) -> bool
    requires { 8 + 4 * count ≤ length page.now }
    ensures inside { result ≡ true → Each (λ leaf. (2 ≤ leaf) × (leaf ≤ last)) (numbers_at page.now 8 count) }
    ensures outside { result ≡ false → (leaf : ℕ) × Contains (numbers_at page.now 8 count) leaf × IsOut last leaf }
{
    for i in 0..count {
        if is_outside(get_u32(page, LEAVES + 4 * i), last) {
            return false;
        }
    }
    true
}

// Whether a list of which so many pages are to come goes on with the trunk in a page.
pub(crate) fn goes_on(page: &[u8], usable: usize, last: u32, left: u32) -> bool
    requires least { 8 ≤ usable }
    requires room { usable ≤ length page.now }
    ensures whole { result ≡ true → IsTrunk usable last (trunk_in page.now) × (u32_at page.now 4 < left) }
    ensures broken { result ≡ false → IsBroken usable last left (trunk_in page.now) }
{
    if lists_too_many(page, usable, left) {
        return false;
    }
    are_inside(page, get_u32(page, 4) as usize, last)
}

// Appends a trunk and the leaves that it lists, so many. After an error some of them stand behind what was there.
pub(crate) fn append_trunk(
    to: &mut Vec<u32>,
    number: u32,
    page: &[u8],
    count: usize,
) -> Result<(), FetchFault>
    requires { 8 + 4 * count ≤ length page.now }
    ensures ok { OnOk result (to.new.items ≡ to.old.items ++ number ∷ numbers_at page.now 8 count) }
    ensures grown { (more : List ℕ) × (to.new.items ≡ to.old.items ++ more) }
    ensures cause { IfErr result (λ why. why ≡ fault.Memory) }
{
    match to.push(number) {
        Ok(()) => (),
        Err(_) => return Err(FetchFault::Memory),
    }
    for i in 0..count {
        match to.push(get_u32(page, LEAVES + 4 * i)) {
            Ok(()) => (),
            Err(_) => return Err(FetchFault::Memory),
        }
    }
    Ok(())
}
