// The version that is written: the lowest that holds the job.
ghost use Rattle.std.specs.Prelude.{◌≡◌, take};
ghost use Rattle.sheet_writer.specs.Choice.{usual_tails, version_by_limits, version_by};

use crate::JobParts;
use job_sheet::usual_limits::{USUAL_RUN, USUAL_TAIL};
use job_sheet::{Sinks, Version, versions};

// Whether each sink's tail limit is the usual one. Sinks that are too many are number 1, which isn't asked here.
fn tails_usual(sinks: Sinks) -> bool
    ensures { result ≡ usual_tails (take sinks.count sinks.ends) }
{
    sinks
        .ends
        .iter()
        .take(sinks.count)
        .all(|sink| sink.tail == USUAL_TAIL)
}

// "The writer uses version 1 where all are 12 and 8."
#[tactic(auto, unfolding(crate::specs::Choice::version_by_limits))]
fn version_by_limits(run: usize, sinks: Sinks) -> Version
    ensures { result ≡ version_by_limits run sinks }
{
    if run == USUAL_RUN && tails_usual(sinks) {
        versions::version_one()
    } else {
        versions::version_two()
    }
}

impl JobParts<'_> {
    // "The writer chooses the lowest version that holds the job."
    pub fn version_for(&self) -> Version
        ensures { result ≡ version_by self.now.room self.now.config self.now.run self.now.sinks }
    {
        if versions::first_ranges().hold(self.room, self.config) {
            version_by_limits(self.run, self.sinks)
        } else {
            versions::version_three()
        }
    }
}
