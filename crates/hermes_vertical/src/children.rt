ghost use Rattle.std.specs.Prelude.{◌≡◌, ◌++◌, OnOk};
ghost use Rattle.hermes_element.specs.Standing.{StillStands};
ghost use Rattle.hermes_vertical.specs.Canonical.{children_spelling};
ghost use Rattle.hermes_vertical.specs.Parts.{features_of, name_of};

use crate::message::Vertical;
use hermes_horizontal::columns::{append, append_features};
use line_base::Memory;

/// Appends the end of a message's start tag, and what follows it in its element.
pub fn append_children(body: &Vertical, to: &mut Vec<u8>) -> Result<(), Memory>
    ensures kept { StillStands to.old.items to.new.items }
    ensures written { OnOk result (to.new.items ≡ to.old.items ++ children_spelling body.now) }
{
    match body {
        Vertical::SupervisoryServiceDescription(system) => {
            append(to, b">")?;
            append_features(system.features, to)?;
            append(to, b"</SupervisoryServiceDescription>")
        }
        _ => append(to, b"/>"),
    }
}
