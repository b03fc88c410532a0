// How much of a payload its cell stores. With U usable bytes: X is the most, M the least of a payload that is too large, and K what would
// fill whole overflow pages with the rest; K is stored where it is at most X, else M.
ghost use Rattle.std.specs.Prelude.{◌≡◌, ◌+◌, ◌≤◌};
ghost use Rattle.node_spec.specs.Cells.{most_local, least_local, fitted_local, spills, local_size, stored_size};

// X: the most bytes of a payload that a cell stores.
#[tactic(auto, unfolding(node_spec::specs::Cells::most_local, node_spec::specs::Cells::least_local))]
fn most_local(table: bool, u: usize) -> usize
    requires least { 480 ≤ u }
    requires most { u ≤ 65536 }
    ensures value { result ≡ most_local table u }
    ensures above_least { least_local u ≤ result }
    ensures most { result ≤ u }
{
    if table {
        u - 35
    } else {
        (u - 12) * 64 / 255 - 23
    }
}

// M: the least bytes that a cell stores of a payload that is too large.
#[tactic(auto, unfolding(node_spec::specs::Cells::least_local))]
fn least_local(u: usize) -> usize
    requires least { 480 ≤ u }
    requires most { u ≤ 65536 }
    ensures value { result ≡ least_local u }
    ensures most { result ≤ u }
{
    (u - 12) * 32 / 255 - 23
}

/// Whether a payload of so many bytes is too large to be stored whole.
#[tactic(auto, unfolding(node_spec::specs::Cells::spills))]
pub fn spills(table: bool, u: usize, payload: u64) -> bool
    requires least { 480 ≤ u }
    requires most { u ≤ 65536 }
    ensures { result ≡ spills table u payload }
{
    payload > most_local(table, u) as u64
}

/// How many bytes of a payload its cell stores.
#[tactic(auto, unfolding(node_spec::specs::Cells::local_size, node_spec::specs::Cells::spills, node_spec::specs::Cells::fitted_local))]
pub fn local_size(table: bool, u: usize, payload: u64) -> usize
    requires least { 480 ≤ u }
    requires most { u ≤ 65536 }
    ensures value { result ≡ local_size table u payload }
    ensures most { result ≤ u }
{
    let most = most_local(table, u);
    if payload <= most as u64 {
        return payload as usize;
    }
    let least = least_local(u);
    let fitted = least + ((payload - least as u64) % (u as u64 - 4)) as usize;
    if fitted <= most { fitted } else { least }
}

/// How many bytes a payload takes in its cell, with the number of its first overflow page.
#[tactic(auto, unfolding(node_spec::specs::Cells::stored_size))]
pub(crate) fn stored_size(table: bool, u: usize, payload: u64) -> usize
    requires least { 480 ≤ u }
    requires most { u ≤ 65536 }
    ensures value { result ≡ stored_size table u payload }
    ensures most { result ≤ u + 4 }
{
    let local = local_size(table, u, payload);
    if spills(table, u, payload) {
        local + 4
    } else {
        local
    }
}
