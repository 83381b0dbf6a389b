use std::fmt::{Display, Formatter, Result as FmtResult, Write};
use thiserror::Error;

/// Why bytes spell no element.
#[derive(Clone, Copy, Debug, PartialEq, Eq, Error)]
pub enum Why {
    /// The bytes end where a document goes on.
    Unended,
    /// `<!--` stands there.
    Comment,
    /// `<![CDATA[` stands there.
    CData,
    /// `<!DOCTYPE` stands there.
    Doctype,
    /// `<?` stands there.
    Instruction,
    /// A byte that no document has there.
    Character,
    /// The name of an end tag isn't that of its start tag.
    EndName,
    /// An attribute's name stands again in one element.
    Repeated,
    /// An escape that stands for no allowed character.
    Reference,
    /// A value of more than 1,024 bytes.
    LongValue,
    /// An element at depth 5.
    Deep,
    /// A 65th attribute of one element.
    Many,
}

impl Why {
    ghost use Rattle.std.specs.Prelude.{◌≡◌};
    ghost use Rattle.hermes_element.specs.Refusal.{why_text};

    /// The reason in words.
    pub fn text(self) -> &'static str
        ensures { result.now ≡ why_text self }
    {
        match self {
            Why::Unended => "unended",
            Why::Comment => "comment",
            Why::CData => "cdata",
            Why::Doctype => "doctype",
            Why::Instruction => "instruction",
            Why::Character => "character",
            Why::EndName => "end name",
            Why::Repeated => "repeated",
            Why::Reference => "reference",
            Why::LongValue => "long value",
            Why::Deep => "deep",
            Why::Many => "many attributes",
        }
    }
}

impl Display for Why {
    ghost use Rattle.std.specs.Prelude.{Some};
    ghost use Rattle.hermes_element.specs.Refusal.{why_text};

    ghost output = { λ why. Some (why_text why) };

    fn fmt<W: Write>(&self, f: &mut Formatter<W>) -> FmtResult {
        f.write_str(self.text())
    }
}

/// Why no element was read.
#[derive(Clone, Copy, Debug, PartialEq, Eq)]
pub enum ElementError {
    /// The bytes spell no element: at this index, for this reason.
    Refused { at: usize, why: Why },
    /// Memory was wanting.
    Memory,
}

/// Why a child was not added to an element.
#[derive(Clone, Copy, Debug, PartialEq, Eq)]
pub enum ChildError {
    /// The element would have more than four levels of elements.
    Deep,
    Memory,
}
