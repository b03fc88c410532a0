// Pages that are given up.
ghost use Rattle.std.specs.Prelude.{◌≡◌, ◌≤◌, OnOk, IfErr, All};
ghost use Rattle.page_spec.specs.View.{View};
ghost use Rattle.page_face.specs.Pages.{Editing, IsFromOutside};
ghost use Rattle.overflow.specs.Editing.{AreInUse};
ghost use Rattle.tree_edit.specs.Editing.{EditsPages, giving};

use page_face::{EditPages, FetchFault};

/// Gives up pages that aren't in use any more, each from 2 to the last one.
///
/// The error is a failed disk or want of memory; then those before the one that failed are given up.
pub fn give_pages<P: EditPages>(pages: &mut P, gone: &[u32]) -> Result<(), FetchFault>
    requires ready { P.ready pages.old }
    requires range { All (λ page. (2 ≤ page) × (page ≤ P.last_page pages.old)) gone.now }
    ensures given { OnOk result ((world : View) → P.tells pages.new world → AreInUse P.PagesTells pages.old world gone.now → P.neat pages.old world
        → EditsPages P.PagesTells (giving gone.now) pages.old pages.new world) }
    ensures cause { IfErr result (λ why. IsFromOutside (P.faults pages.old) (P.faults pages.new) why) }
    ensures last { P.last_page pages.new ≡ P.last_page pages.old }
    ensures edits { Editing P.PagesTells pages.old pages.new }
{
    'pages: for i in 0..gone.len() {
        match pages.give_up(gone[i]) {
            Ok(()) => (),
            Err(why) => return Err(why),
        }
    }
    Ok(())
}
