//! What a run has one of. The laws are contracts over the definitions of specs/.

ghost use Rattle.law_node_runs.specs.One.{EachPartIsAFront, EachRunIsOne};

/// Equal answers at equal moments give equal calls, an equal log and an equal end; and what was
/// called and logged of a run that was broken off is a front of what the whole run did.
pub fn a_run_is_one()
    ensures whole { EachRunIsOne }
    ensures part { EachPartIsAFront }
{
    node_core::laws::one_meaning();
    hermes_vertical::spelled_once();
    hermes_vertical::refused_once();
    config_service::spelled_once();
    config_service::refused_once();
}
