//! What messages of both channels are read and written with: the fields of an element by the
//! columns of a row of the table, the root round it, and what both channels say alike.

pub use crate::alike::{Alive, Notice, append_alive, append_notice, read_alive, read_notice};
pub use crate::assign::{
    append, append_id, append_number, append_optional_moment, append_optional_number,
    append_optional_text, append_text,
};
pub use crate::children::append_features;
pub use crate::copies::name_copy;
pub use crate::fault::Refusal;
pub use crate::field::Field;
pub use crate::find::{find_five, find_four, find_one, find_three, find_two};
pub use crate::proper::{
    id_is_proper, optional_moment_is_proper, optional_text_is_proper, text_is_proper,
};
pub use crate::root::{Opened, open_root};
pub use crate::rows::features_in;
