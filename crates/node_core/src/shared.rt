use std::marker::Model;

/// What the lanes of a machine share: the count of its ids, and whether it is supervised. A machine
/// alone says it, as one lane of it has it, and others follow (`Node::share`).
#[derive(Debug, Drop)]
pub struct Shared {
    pub(crate) number: u32,
    pub(crate) used: u64,
    pub(crate) supervised: bool,
}

impl Model for Shared {
    ghost use Rattle.std.specs.Prelude.{◌<◌, ◌^◌};
    ghost use Rattle.node_core.specs.Shared.{SharedParts};

    ghost Value = { SharedParts };

    ghost view = { λ shared. record {
      maker = record { machine = shared.number; used = shared.used };
      supervised = shared.supervised;
    } };

    ghost invariant = { λ shared. shared.used < 2 ^ 48 };
}
