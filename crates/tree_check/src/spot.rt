// Where pages stand in trees.
ghost use Rattle.std.specs.Prelude.{◌≡◌, ◌<◌, ◌≤◌, true, false, Some, None};
ghost use Rattle.check_spec.specs.Walk.{schema_spot, root_spot, child_spot};

use check_spec::Spot;

// Where page 1 stands, which is a table's root.
pub(crate) fn schema_spot() -> Spot
    ensures { result ≡ schema_spot }
{
    Spot {
        schema: true,
        table: Some(true),
        level: 0,
        before: None,
        bound: None,
    }
}

// Where another root stands.
pub(crate) fn root_spot() -> Spot
    ensures { result ≡ root_spot }
{
    Spot {
        schema: false,
        table: None,
        level: 0,
        before: None,
        bound: None,
    }
}

// Where a child stands, with the rowids that may stand under it.
pub(crate) fn child_spot(spot: &Spot, table: bool, before: Option<i64>, bound: Option<i64>) -> Spot
    requires { spot.now.level ≤ 41 }
    ensures { result ≡ child_spot spot.now table before bound }
{
    Spot {
        schema: spot.schema,
        table: Some(table),
        level: spot.level + 1,
        before,
        bound,
    }
}

// How deep the first leaf of the tree stands before a page is met so many levels below the root, if one was met: none was before the root.
pub(crate) fn leaves_before(level: u32, leaves: Option<u32>) -> Option<u32>
    ensures root { level ≡ 0 → result ≡ None }
    ensures below { 0 < level → result ≡ leaves }
{
    if level == 0 { None } else { leaves }
}

// And once it was met.
pub(crate) fn leaves_after(leaf: bool, level: u32, before: Option<u32>) -> Option<u32>
    ensures leaf { leaf ≡ true → result ≡ Some level }
    ensures inner { leaf ≡ false → result ≡ before }
{
    if leaf { Some(level) } else { before }
}
