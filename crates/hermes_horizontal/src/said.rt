ghost use Rattle.std.specs.Prelude.{◌≡◌, IfOk};

use crate::message::Horizontal;
use line_base::Memory;
use std::alloc::Global;
use std::marker::Model;
use std::rc::Rc;

/// What a message says. It lies apart, so that a message is small, and so is all that holds one: a
/// message is moved many times, and its parts are looked at once or twice. An equal one shares it.
///
/// It is seen as what it says.
#[derive(Debug, Drop)]
pub struct Said {
    what: Rc<Horizontal>,
}

impl Model for Said {
    ghost use Rattle.hermes_horizontal.specs.declared.message.Horizontal.{Horizontal};

    ghost Value = { Horizontal };

    ghost view = { λ said. said.what.value };
}

impl Said {
    /// Puts aside what a message says. `Memory` where there is no room for it.
    pub fn new(alloc: Global, what: Horizontal) -> Result<Said, Memory>
        ensures { IfOk result (λ said. said ≡ what) }
    {
        let what = Rc::new(alloc, what)?;
        Ok(Said { what })
    }

    /// What is said.
    pub fn what(&self) -> &Horizontal
        ensures { result.now ≡ self.now }
    {
        &*self.what
    }

    /// An equal one, which shares what is said. `Memory` where it is shared too often.
    pub fn copy(&self) -> Result<Said, Memory>
        ensures { IfOk result (λ copy. copy ≡ self.now) }
    {
        match self.what.clone() {
            Ok(what) => Ok(Said { what }),
            Err(_) => Err(Memory),
        }
    }
}
