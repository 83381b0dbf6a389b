ghost use Rattle.std.specs.Prelude.{◌≡◌, ◌∷◌, ◌++◌, [], drop, OnOk, true};
ghost use Rattle.hermes_vertical.specs.Canonical.{canonical};
ghost use Rattle.machine_port.specs.Ways.{at_rest, told_way, way_after, way_sent};

use hermes_horizontal::write_horizontal;
use hermes_vertical::{VerticalMessage, write_vertical};
use line_base::{Memory, Side};
use node_core::Act;
use std::alloc::Global;
use std::marker::Model;

/// The way to a neighbour, or to a supervisor: the text that waits to be sent on its connection, and whether that is to
/// be closed.
#[derive(Debug, Drop)]
pub struct Outgoing {
    text: Vec<u8>,
    closes: bool,
}

impl Model for Outgoing {
    ghost use Rattle.machine_port.specs.Ways.{WayState};

    ghost Value = { WayState };

    ghost view = { λ way. record { text = way.text.items; closes = way.closes } };
}

impl Outgoing {
    /// A way without a connection.
    pub(crate) fn new(alloc: Global) -> Outgoing
        ensures { result ≡ at_rest }
    {
        Outgoing {
            text: Vec::new(alloc),
            closes: false,
        }
    }

    /// What waits to be sent, in bytes.
    pub fn text(&self) -> &[u8]
        ensures { result.now ≡ self.now.text }
    {
        self.text.as_slice()
    }

    /// Whether its connection is to be closed, once its text is sent.
    pub fn closes(&self) -> bool
        ensures { result ≡ self.now.closes }
    {
        self.closes
    }

    /// What these acts say at its side waits behind what waits here.
    pub(crate) fn put(&mut self, side: Side, acts: &[Act]) -> Result<(), Memory>
        ensures { OnOk result (self.new ≡ way_after side acts.now self.old) }
    {
        for act in acts {
            self.put_one(side, act)?;
        }
        Ok(())
    }

    fn put_one(&mut self, side: Side, act: &Act) -> Result<(), Memory>
        ensures { OnOk result (self.new ≡ way_after side (act.now ∷ []) self.old) }
    {
        match (side, act) {
            (Side::Entry, Act::Sends(Side::Entry, message)) => {
                write_horizontal(message, &mut self.text)
            }
            (Side::Exit, Act::Sends(Side::Exit, message)) => {
                write_horizontal(message, &mut self.text)
            }
            (Side::Entry, Act::Closes(Side::Entry)) | (Side::Exit, Act::Closes(Side::Exit)) => {
                self.closes = true;
                Ok(())
            }
            _ => Ok(()),
        }
    }

    /// What these acts tell a supervisor waits behind what waits here, where its session stands.
    pub(crate) fn put_told(&mut self, stands: bool, acts: &[Act]) -> Result<(), Memory>
        ensures { OnOk result (self.new ≡ told_way stands acts.now self.old) }
    {
        for act in acts {
            self.put_one_told(stands, act)?;
        }
        Ok(())
    }

    fn put_one_told(&mut self, stands: bool, act: &Act) -> Result<(), Memory>
        ensures { OnOk result (self.new ≡ told_way stands (act.now ∷ []) self.old) }
    {
        match act {
            Act::Tells(told) if stands => self.say(told.message()),
            _ => Ok(()),
        }
    }

    /// A message for a supervisor waits behind what waits here.
    pub(crate) fn say(&mut self, message: &VerticalMessage) -> Result<(), Memory>
        ensures { OnOk result
            (self.new ≡ record self.old { text = self.old.text ++ canonical message.now }) }
    {
        write_vertical(message, &mut self.text)
    }

    /// Its connection is to be closed, once its text is sent.
    pub(crate) fn end(&mut self)
        ensures { self.new ≡ record self.old { closes = true } }
    {
        self.closes = true;
    }

    /// So many bytes from its front are sent: all, where there are fewer.
    pub(crate) fn take_front(&mut self, count: usize)
        ensures { self.new ≡ way_sent count self.old }
    {
        drop_front(&mut self.text, count);
    }

    /// Its connection is closed, and what waits is dropped.
    pub(crate) fn rest(&mut self)
        ensures { self.new ≡ at_rest }
    {
        self.text.clear();
        self.closes = false;
    }
}

/// Takes so many bytes from the front of a text: all, where there are fewer.
pub fn drop_front(text: &mut Vec<u8>, count: usize)
    ensures { text.new.items ≡ drop count text.old.items }
{
    let left = text.len().saturating_sub(count);
    let start = text.len() - left;
    text.copy_within(start.., 0);
    text.truncate(left);
}
