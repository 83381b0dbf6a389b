ghost use Rattle.std.specs.Prelude.{◌≡◌, not};
ghost use Rattle.standings.specs.Marks.{is_same_mark};
ghost use Rattle.line_check.specs.Marks.{without_mark};

use standings::Mark;

/// Takes a mark out of some.
pub fn drop_mark(marks: &mut Vec<Mark>, mark: Mark)
    ensures { marks.new.items ≡ without_mark mark marks.old.items }
{
    marks.retain(
        |other: &Mark| -> bool
            ensures { result ≡ not (is_same_mark other.now mark) }
        { *other != mark },
    );
}
