ghost use Rattle.std.specs.Prelude.{◌≡◌, ◌≤◌, ◌<◌, [], ◌∷◌, ◌++◌, List, OnOk, OnErr, drop, length};
ghost use Rattle.hermes_horizontal.specs.declared.message.Info.{Info as Told};
ghost use Rattle.forecast_query.specs.Forecasts.{last, most_forecasts};

use hermes_horizontal::Info;
use line_base::Memory;
use std::alloc::Global;
use std::marker::Model;

/// The most forecasts that are kept. One more drops the oldest.
pub const MOST_FORECASTS: usize = 64;

/// The last forecasts of the machine upstream, the oldest first.
///
/// It is seen as their list.
#[derive(Debug, Drop)]
pub struct Forecasts {
    infos: Vec<Info>,
}

impl Model for Forecasts {
    ghost use Rattle.std.specs.Prelude.{◌≤◌, List, vec_len};
    ghost use Rattle.hermes_horizontal.specs.declared.message.Info.{Info as Said};

    ghost Value = { List Said };

    ghost view = { λ forecasts. forecasts.infos.items };

    ghost invariant = { λ forecasts. vec_len forecasts.infos ≤ 64 };
}

impl Forecasts {
    /// No forecasts yet.
    pub fn new(alloc: Global) -> Forecasts
        ensures { result ≡ [] }
    {
        Forecasts {
            infos: Vec::new(alloc),
        }
    }

    /// Adds a forecast behind the others, and keeps the last 64: of 64 the oldest is dropped, and
    /// no memory is taken. `Memory` where there is no room; the list is then as it was.
    pub fn add(&mut self, info: Info) -> Result<(), Memory>
        ensures added { OnOk result (self.new ≡ last most_forecasts (self.old ++ info ∷ [])) }
        ensures memory { OnErr result (self.new ≡ self.old) }
        ensures room { OnErr result (length self.old < most_forecasts) }
        // on both outcomes
        ensures bounded { length self.new ≤ most_forecasts }

        // what is kept are the last of all that were told
        ensures told { OnOk result ((told : List Told) → self.old ≡ last most_forecasts told
            → self.new ≡ last most_forecasts (told ++ info ∷ [])) }
    {
        self.keep(info)
    }

    /// Forgets all forecasts.
    pub fn clear(&mut self)
        ensures { self.new ≡ [] }
    {
        self.infos.clear();
    }

    /// The forecasts, the oldest first.
    pub fn list(&self) -> &[Info]
        ensures list { result.now ≡ self.now }
        ensures bounded { length self.now ≤ most_forecasts }
    {
        self.infos.as_slice()
    }

    fn keep(&mut self, info: Info) -> Result<(), Memory>
        ensures added { OnOk result (self.new ≡ last most_forecasts (self.old ++ info ∷ [])) }
        ensures memory { OnErr result (self.new ≡ self.old) }
        ensures room { OnErr result (length self.old < most_forecasts) }
        ensures bounded { length self.new ≤ most_forecasts }
    {
        if self.infos.len() < MOST_FORECASTS {
            return self.grow(info);
        }
        self.replace_oldest(info);
        Ok(())
    }

    fn grow(&mut self, info: Info) -> Result<(), Memory>
        requires { length self.old < most_forecasts }
        ensures added { OnOk result (self.new ≡ self.old ++ info ∷ []) }
        ensures memory { OnErr result (self.new ≡ self.old) }
    {
        match self.infos.push(info) {
            Ok(()) => Ok(()),
            Err(_) => Err(Memory),
        }
    }

    fn replace_oldest(&mut self, info: Info)
        requires { length self.old ≡ most_forecasts }
        ensures { self.new ≡ drop 1 self.old ++ info ∷ [] }
    {
        let _oldest = self.infos.remove(0);
        self.infos.push(info).unwrap();
    }
}
