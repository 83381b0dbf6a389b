//! The laws of entries and their bytes.

ghost use Rattle.std.specs.Prelude.{◌≡◌, Ok};
ghost use Rattle.book_entry.specs.Reading.{entry_in};
ghost use Rattle.book_entry.specs.Spelling.{spelling};
ghost use Rattle.book_entry.specs.Worked.{accepted_bytes, accepted_entry, notice_bytes, notice_entry};

/// Two entries and their bytes.
pub fn worked_entries()
    ensures accepted { spelling accepted_entry ≡ accepted_bytes }
    ensures notice { spelling notice_entry ≡ notice_bytes }
    ensures accepted_is_read { entry_in accepted_bytes ≡ Ok (accepted_entry, 15) }
    ensures notice_is_read { entry_in notice_bytes ≡ Ok (notice_entry, 16) }
{}
