//! The results of a run's readers, as the error of the run.

ghost use Rattle.std.specs.Prelude.{◌≡◌, ◌≤◌, None, Some, length, IfErr, OnOk};
ghost use Rattle.pit_compile.specs.inner.ReadAnswers.{refusal_in, refusal_of};
ghost use Rattle.plan_parts.specs.declared.ranges.TheConstants.{MAX_ZONES};

use devices::feeds::fed_fault::FedFault;
use devices::feeds::slurp::SlurpFault;
use refusals::refusal::Refusal;
use run_threads::ReadResult;

/// Fails with the error of the first file whose reader did not finish.
pub fn require_read(answers: &[ReadResult]) -> Result<(), Refusal>
    requires { length answers.now ≤ MAX_ZONES }
    ensures read { OnOk result (refusal_in 0 answers.now ≡ None) }
    ensures refused { IfErr result (λ refusal. refusal_in 0 answers.now ≡ Some refusal) }
{
    for (file, answer) in answers.iter().enumerate() {
        require_file(file as u8, answer)?;
    }
    Ok(())
}

fn require_file(file: u8, answer: &ReadResult) -> Result<(), Refusal>
    ensures read { OnOk result (refusal_of file answer.now ≡ None) }
    ensures refused { IfErr result (λ refusal. refusal_of file answer.now ≡ Some refusal) }
{
    match answer {
        Ok(()) => Ok(()),
        Err(FedFault::Text(fault)) => Err(Refusal::Row {
            file,
            fault: *fault,
        }),
        Err(FedFault::Unread(SlurpFault::FeedFailed)) => Err(Refusal::FeedFailed { file }),
        Err(FedFault::Unread(SlurpFault::TooLong)) => Err(Refusal::TooLong { file }),
        Err(FedFault::Unread(SlurpFault::OutOfMemory)) => Err(Refusal::OutOfMemory),
    }
}
