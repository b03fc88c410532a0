// What page lines mean.
use page_face::Means;

/// The meaning of page lines: a page store of 16 pages, of which the lines read and write pages 2 to 16.
pub struct Raw;

impl Means for Raw {
    ghost use Rattle.page_lines.specs.PageLines.{IsPageStore, PageLinesLead};
    ghost use Rattle.page_lines.specs.PageLineLaws.{rests as lines_rest, joins as lines_join};

    ghost sound = { λ first pages. IsPageStore pages };

    ghost leads = { λ first before said after. PageLinesLead before said after };

    ghost rests = { λ first pages sound. lines_rest pages };

    ghost joins = { λ first before between after some others one two. lines_join before between after some others one two };
}
