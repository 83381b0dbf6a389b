//! The laws of messages in a stream.

ghost use Rattle.hermes_stream.specs.Frames.{IsOneFrame};
ghost use Rattle.hermes_horizontal.specs.Canonical.{IsProperMessage, IsWritable, canonical};
ghost use Rattle.hermes_horizontal.specs.declared.message.Message.{Message};
ghost use Rattle.law_link_messages.specs.Framed.{HasShortName};

use hermes_horizontal::Message;

/// What is written of this message is one message of a stream and nothing else, and has at most
/// 65,536 bytes, if it is writable: the lane, the code and the places of sub boards are at most
/// 999,999,999, a forecast has no sub boards, and the name in `Other` is none of the thirteen. That
/// name has at most 65,480 bytes.
///
/// The call states the law: it goes over the message's parts, and changes nothing.
pub fn text_is_one_frame(message: &Message)
    ensures { IsWritable message.now → HasShortName message.now.body
        → IsOneFrame (canonical message.now) }
{
    message.is_proper();
    proper_text_is_one_frame();
}

/// The same of every message whose parts are within what their types allow, as those of a program
/// are.
pub fn proper_text_is_one_frame()
    ensures { (message : Message) → IsProperMessage message → IsWritable message
        → HasShortName message.body → IsOneFrame (canonical message) }
{}
