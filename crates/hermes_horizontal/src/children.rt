ghost use Rattle.std.specs.Prelude.{◌≡◌, ◌++◌, [], ◌||◌, if◌then◌else◌, OnErr, OnOk};
ghost use Rattle.hermes_element.specs.Standing.{StillStands};
ghost use Rattle.hermes_horizontal.specs.Canonical.{children_of, children_spelling, feature_children};
ghost use Rattle.hermes_horizontal.specs.Parts.{featured};
ghost use Rattle.hermes_element.specs.Canonical.{canonical_forest};

use crate::assign::append;
use crate::message::{Features, Horizontal};
use crate::subs::append_subs;
use line_base::Memory;

/// Appends the end of a message's start tag, and what follows it in its element.
pub fn append_children(body: &Horizontal, to: &mut Vec<u8>) -> Result<(), Memory>
    ensures kept { StillStands to.old.items to.new.items }
    ensures written { OnOk result (to.new.items ≡ to.old.items ++ children_spelling body.now) }
{
    match body {
        Horizontal::ServiceDescription(service) => {
            append(to, b">")?;
            append_features(service.features, to)?;
            append(to, b"</ServiceDescription>")
        }
        Horizontal::BoardAvailable(board) => append_subs(b"BoardAvailable", &board.subs, to),
        Horizontal::SendBoardInfo(info) => append_subs(b"SendBoardInfo", &info.subs, to),
        _ => append(to, b"/>"),
    }
}

/// Appends the features that a description lists. Where memory is wanting, `to` is as it was.
pub fn append_features(features: Features, to: &mut Vec<u8>) -> Result<(), Memory>
    ensures kept { StillStands to.old.items to.new.items }
    ensures written { OnOk result
        (to.new.items ≡ to.old.items ++ canonical_forest (children_of (featured features))) }
    ensures unchanged { OnErr result (to.new.items ≡ to.old.items) }
{
    let before = to.len();
    match put_features(features, to) {
        Ok(()) => Ok(()),
        Err(Memory) => {
            to.truncate(before);
            Err(Memory)
        }
    }
}

/// The same, but where memory is wanting a part of it may stand there.
fn put_features(features: Features, to: &mut Vec<u8>) -> Result<(), Memory>
    ensures kept { StillStands to.old.items to.new.items }
    ensures written { OnOk result
        (to.new.items ≡ to.old.items ++ canonical_forest (children_of (featured features))) }
{
    if !has_any(features) {
        return append(to, b"<SupportedFeatures/>");
    }
    append(to, b"<SupportedFeatures>")?;
    append_if(features.check_alive, b"<FeatureCheckAliveResponse/>", to)?;
    append_if(features.forecast, b"<FeatureBoardForecast/>", to)?;
    append_if(features.query, b"<FeatureQueryBoardInfo/>", to)?;
    append_if(features.send, b"<FeatureSendBoardInfo/>", to)?;
    append(to, b"</SupportedFeatures>")
}

fn has_any(features: Features) -> bool
    ensures { result
        ≡ (features.check_alive || features.forecast || features.query || features.send) }
{
    features.check_alive || features.forecast || features.query || features.send
}

fn append_if(test: bool, bytes: &[u8], to: &mut Vec<u8>) -> Result<(), Memory>
    ensures kept { StillStands to.old.items to.new.items }
    ensures written { OnOk result (to.new.items ≡ to.old.items ++ (if test then bytes.now else [])) }
{
    if test {
        return append(to, bytes);
    }
    Ok(())
}
