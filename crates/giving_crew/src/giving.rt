//! A job is given away.

ghost use Rattle.std.specs.Prelude.{◌≡◌, ◌≤◌, ◌<◌, ◌⊎◌, true, vec_len, ◌++◌, ◌∷◌, [], IfOk, IfErr, MatchOption};
ghost use Rattle.steal_crew.specs.Tickets.{drawn, source_of, limit_of, is_out};
ghost use Rattle.steal_crew.specs.Jobs.{numbered_job, job_numbers};
ghost use Rattle.giving_crew.specs.LiveHands.{Gave};

use crate::hands::Hand;
use crate::limits::MOST_GIVEN;
use match_limits::MOST_LEMMAS;
use steal_crew::jobs::NumberedJob;

impl<'a, J: Drop> Hand<'a, J> {
    /// Draws the next number for the job, answers it, and puts both at the end of the list. The job comes back, and
    /// nothing was drawn or put, where the list has 64 jobs or each number below the limit was drawn. It takes no
    /// memory, and waits for nobody.
    pub fn give(&mut self, job: J) -> Result<u32, J>
        ensures gave { Gave self.old self.new }
        ensures below { IfOk result (λ k. k < limit_of self.old.source.now) }
        ensures few { IfOk result (λ k. k < MOST_LEMMAS) }
        ensures number { IfOk result (λ k. drawn self.new.seat ≡ drawn self.old.seat ++ k ∷ []) }
        ensures listed { IfOk result (λ k. self.new.jobs.items ≡ self.old.jobs.items ++ numbered_job k job ∷ []) }
        ensures back { IfErr result (λ same. same ≡ job) }
        ensures full { IfErr result (λ _. (MOST_GIVEN ≤ vec_len self.old.jobs) ⊎ (is_out self.new.seat ≡ true)) }
        ensures undrawn { IfErr result (λ _. drawn self.new.seat ≡ drawn self.old.seat) }
        ensures unlisted { IfErr result (λ _. self.new.jobs.items ≡ self.old.jobs.items) }
    {
        if self.jobs.len() >= MOST_GIVEN {
            return Err(job);
        }
        let Some(number) = self.source.draw(&mut self.seat) else {
            return Err(job);
        };
        self.jobs.push_reserved(NumberedJob { number, job });
        Ok(number)
    }

    // Takes the job that was given first, of those in the list.
    pub(crate) fn next(&mut self) -> Option<NumberedJob<J>>
        ensures source { source_of self.new.source.now ≡ source_of self.old.source.now }
        ensures seat { drawn self.new.seat ≡ drawn self.old.seat }
        ensures jobs { MatchOption result
            ((job_numbers self.old.jobs.items ≡ []) × (job_numbers self.new.jobs.items ≡ []))
            (λ first. job_numbers self.old.jobs.items ≡ first.number ∷ job_numbers self.new.jobs.items) }
    {
        if self.jobs.is_empty() {
            return None;
        }
        Some(self.jobs.remove(0))
    }
}
