ghost use Rattle.std.specs.Prelude.{◌≡◌};
ghost use Rattle.line_commands.specs.Checking.{Checks, status_by};
ghost use Rattle.line_status.specs.Status.{HasCauses};
ghost use Rattle.line_commands.specs.Command.{IsCheckStatus};

use line_outside::{Sink, Source};
use line_status::Status;
use log_verdict::{Checked, check_log};
use std::alloc::Global;

/// Checks the merged log that the source has, and writes the verdict.
#[tactic(auto, using(crate::proofs::Checked::checks_by, crate::proofs::Checked::fits_by, crate::proofs::Checked::causes_by))]
pub fn check_merged<S: Source, K: Sink>(alloc: Global, log: &mut S, verdict: &mut K) -> Status
    ensures checks { Checks (S.left log.old) (S.left log.new) (K.contents verdict.old)
        (K.contents verdict.new) result }
    ensures fits { IsCheckStatus result }
    ensures causes { HasCauses result (S.faults log.old) (S.faults log.new) (K.faults verdict.old)
        (K.faults verdict.new) }
{
    status_by(check_log(alloc, log, verdict))
}

/// The end of a check, as the end of a call.
fn status_by(checked: Checked) -> Status
    ensures { result ≡ status_by checked }
{
    match checked {
        Checked::Done => Status::Done,
        Checked::Refuted { line, why } => Status::Refuted { line, why },
        Checked::ReadFault => Status::ReadFault,
        Checked::WriteFault => Status::WriteFault,
        Checked::Memory => Status::Memory,
    }
}
