use line_base::Memory;

/// Why bytes begin with no entry.
#[derive(Clone, Copy, Debug, PartialEq, Eq)]
pub enum EntryError {
    /// They are the front of an entry, and end before it does.
    Short,
    /// No entry begins with them, and they begin with none.
    Bad,
    /// Memory was wanting.
    Memory,
}

/// The same without memory.
#[derive(Clone, Copy, Debug, PartialEq, Eq)]
pub enum Fail {
    Short,
    Bad,
}

impl From<Fail> for EntryError {
    ghost use Rattle.std.specs.Prelude.{◌≡◌};
    ghost use Rattle.book_entry.specs.Answers.{error_of};

    ghost from_gives = { λ fail error. error ≡ error_of fail };

    fn from(fail: Fail) -> EntryError {
        match fail {
            Fail::Short => EntryError::Short,
            Fail::Bad => EntryError::Bad,
        }
    }
}

impl From<Memory> for EntryError {
    ghost use Rattle.std.specs.Prelude.{◌≡◌};
    ghost use Rattle.book_entry.specs.declared.fault.EntryError.TheVariants as errors;

    ghost from_gives = { λ _ error. error ≡ errors.Memory };

    fn from(_memory: Memory) -> EntryError {
        EntryError::Memory
    }
}
