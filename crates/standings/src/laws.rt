//! What holds of standings and of the ledger whatever the marks and the deeds are. Each law is a
//! contract over the definitions of specs/.

ghost use Rattle.std.specs.Prelude.{◌≡◌, ℕ, ◌+◌, Bool, true, false, not, ◌&&◌, ◌||◌, List, Some};
ghost use Rattle.standings.specs.declared.mark.Mark.{Mark as Sign};
ghost use Rattle.standings.specs.declared.entry.Entry.{Entry as Line};
ghost use Rattle.standings.specs.declared.deed.Deed.{Deed as Done};
ghost use Rattle.standings.specs.Marks.{Owned, Where, has_at, has_id, has_mark, mark_at, marks_of, owned_at};
ghost use Rattle.standings.specs.Standing.{HasStanding, Place};
ghost use Rattle.standings.specs.Deeds.{added, taken};
ghost use Rattle.standings.specs.Ledger.{AreLegal, IsLegal, Ledger, are_different, are_new, empty_ledger, has_entry, ids_named, is_entry, is_legal, ledger_after, ledger_after_all, made_by_all, marks_in, stand_once};

/// The marks of an id give it one standing at most.
#[tactic(auto, using(crate::proofs::Standings::one_standing))]
pub fn marks_give_one_standing_at_most()
    ensures { (marks : List Sign) (one other : Place) → HasStanding marks one
        → HasStanding marks other → one ≡ other }
{}

/// A mark of an id stands along a line exactly where its machine has the id in its place. Machines
/// are numbered from 1.
#[tactic(auto, using(crate::proofs::Machines::marks_are_found))]
pub fn marks_are_those_of_the_machines()
    ensures { (place : Where) (before : ℕ) (line : List Owned) (id : ℕ)
        → has_mark (mark_at place (before + 1)) (marks_of line id)
        ≡ has_at place (owned_at line before) id }
{}

/// A legal deed finds the mark that it takes, and takes it; it does not find the mark that it
/// adds, and adds it; all other marks stay.
#[tactic(auto, using(crate::proofs::Entries::found_before, crate::proofs::Entries::gone_after, crate::proofs::Entries::missing_before, crate::proofs::Entries::there_after, crate::proofs::Entries::stands_after))]
pub fn a_legal_deed_takes_the_mark_that_it_finds()
    ensures found { (ledger : Ledger) (deed : Done) (entry : Line) → IsLegal ledger deed
        → taken deed ≡ Some entry → has_entry entry ledger.marks ≡ true }
    ensures gone { (ledger : Ledger) (deed : Done) (entry : Line) → IsLegal ledger deed
        → taken deed ≡ Some entry → has_entry entry (ledger_after ledger deed).marks ≡ false }
    ensures missing { (ledger : Ledger) (deed : Done) (entry : Line) → IsLegal ledger deed
        → added deed ≡ Some entry → has_entry entry ledger.marks ≡ false }
    ensures there { (ledger : Ledger) (deed : Done) (entry : Line) → added deed ≡ Some entry
        → has_entry entry (ledger_after ledger deed).marks ≡ true }
    ensures others { (ledger : Ledger) (deed : Done) (entry : Line)
        → has_entry entry (ledger_after ledger deed).marks
        ≡ ((has_entry entry ledger.marks && not (is_entry (taken deed) entry))
        || is_entry (added deed) entry) }
{}

/// A deed leaves the marks of every id that it does not name.
#[tactic(auto, using(crate::proofs::Ids::others_stay))]
pub fn a_deed_changes_the_marks_of_its_own_ids()
    ensures { (ledger : Ledger) (deed : Done) (id : ℕ) → has_id id (ids_named deed) ≡ false
        → marks_in id (ledger_after ledger deed).marks ≡ marks_in id ledger.marks }
{}

/// Each mark of a ledger is of an id that its deeds named.
#[tactic(auto, using(crate::proofs::Ids::marks_are_seen))]
pub fn marks_are_of_ids_that_deeds_named()
    ensures { (deeds : List Done) (entry : Line)
        → has_entry entry (ledger_after_all empty_ledger deeds).marks ≡ true
        → has_id entry.id (ledger_after_all empty_ledger deeds).seen ≡ true }
{}

/// Legal deeds make no id twice, and none that was seen before.
#[tactic(auto, using(crate::proofs::Ids::made_unseen, crate::proofs::Ids::made_once))]
pub fn legal_deeds_make_new_ids()
    ensures unseen { (ledger : Ledger) (deeds : List Done) → AreLegal ledger deeds
        → are_new ledger.seen (made_by_all deeds) ≡ true }
    ensures once { (ledger : Ledger) (deeds : List Done) → AreLegal ledger deeds
        → are_different (made_by_all deeds) ≡ true }
{}

/// After legal deeds no mark stands twice.
#[tactic(auto, using(crate::proofs::Ids::marks_stand_once))]
pub fn no_mark_stands_twice_after_legal_deeds()
    ensures { (deeds : List Done) → AreLegal empty_ledger deeds
        → stand_once (ledger_after_all empty_ledger deeds).marks ≡ true }
{}

/// The test says whether a deed is legal.
#[tactic(auto, using(crate::proofs::Ids::legal_tested, crate::proofs::Ids::tested_legal))]
pub fn a_test_tells_legal_deeds()
    ensures legal { (ledger : Ledger) (deed : Done) → IsLegal ledger deed
        → is_legal ledger deed ≡ true }
    ensures tested { (ledger : Ledger) (deed : Done) → is_legal ledger deed ≡ true
        → IsLegal ledger deed }
{}
