//! When a machine of a line opens a handover.

ghost use Rattle.law_sentences.specs.Announced.{OpensWhenAnnounced};

/// A start that is heard opens its handover, as the very next happening, exactly where board and
/// place are announced by then; and no other act opens one.
pub fn a_machine_opens_exactly_when_announced()
    ensures { OpensWhenAnnounced }
{}
