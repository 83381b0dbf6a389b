ghost use Rattle.std.specs.Prelude.{◌≡◌, ◌≤◌, [], ◌∷◌, ◌++◌, IfOk, OnErr, OnOk, drop, length, take};

use crate::happening::Happening;
use line_base::Memory;
use std::alloc::Global;
use std::marker::Model;

/// What happened, in its order. It is seen as the list of its happenings.
#[derive(Debug, Drop)]
pub struct Happened {
    list: Vec<Happening>,
}

impl Model for Happened {
    ghost use Rattle.std.specs.Prelude.{List};
    ghost use Rattle.line_report.specs.declared.happening.Happening.{Happening};

    ghost Value = { List Happening };

    ghost view = { λ happened. happened.list.items };
}

impl Happened {
    /// Nothing happened.
    pub fn new(alloc: Global) -> Happened
        ensures { result ≡ [] }
    {
        Happened {
            list: Vec::new(alloc),
        }
    }

    /// The happenings, in their order.
    pub fn list(&self) -> &[Happening]
        ensures { result.now ≡ self.now }
    {
        self.list.as_slice()
    }

    /// Adds all that happened next, in its order. `Memory` where there is none for it; a front of it
    /// may be added then.
    pub fn tell_all(&mut self, next: Happened) -> Result<(), Memory>
        ensures { OnOk result (self.new ≡ self.old ++ next) }
    {
        let mut next = next;
        self.list.append(&mut next.list)?;
        Ok(())
    }

    /// Cuts off all from a place on. `Memory` where there is none for it.
    pub(crate) fn split_off(&mut self, at: usize) -> Result<Happened, Memory>
        requires { at ≤ length self.old }
        ensures front { OnOk result (self.new ≡ take at self.old) }
        ensures rest { IfOk result (λ rest. rest ≡ drop at self.old) }
    {
        let list = self.list.split_off(at)?;
        Ok(Happened { list })
    }

    /// Leaves out the first, if there is one.
    pub(crate) fn drop_first(&mut self)
        ensures { self.new ≡ drop 1 self.old }
    {
        if self.list.is_empty() {
            return;
        }
        drop(self.list.remove(0));
    }

    /// Adds what happened next. `Memory` where there is none for it; nothing is added then.
    pub fn tell(&mut self, happening: Happening) -> Result<(), Memory>
        ensures told { OnOk result (self.new ≡ self.old ++ happening ∷ []) }
        ensures unchanged { OnErr result (self.new ≡ self.old) }
    {
        self.list.push(happening)?;
        Ok(())
    }
}
