//! What a row adds to what was read.
ghost use Rattle.std.specs.Prelude.{◌≡◌, true, false, IfOk};
ghost use Rattle.tracker_keeper.specs.Kept.{IsPart};
ghost use Rattle.tracker_rows.specs.Gathered.{joined, told_with};
ghost use Rattle.tracker_rows.specs.Rules.{MayJoin};
ghost use Rattle.tracker_loading.specs.Making.{IsNextPart};

use crate::progress::Progress;
use field_values::Memory;
use std::alloc::Global;
use tracker_keeper::Part;

impl Progress {
    /// Adds what the part tells, or answers false exactly where the part breaks a rule; what was made is of no use then.
    pub(crate) fn join(&mut self, alloc: Global, part: Part) -> Result<bool, Memory>
        requires form { IsPart self.old.made.setup part }
        requires next { IsNextPart self.old.format self.old.told self.old.made part }
        ensures good { IfOk result (λ good. good ≡ true →
            MayJoin self.old.format self.old.made part
            × (self.new ≡ record self.old {
              told = told_with self.old.told part;
              made = joined self.old.made part;
            })) }
        ensures bad { IfOk result (λ good. good ≡ false
            → ¬ (MayJoin self.old.format self.old.made part)) }
    {
        let good = self.join_part(alloc, &part);
        drop(part);
        good
    }

    // The same of a part that is lent, of which each text is copied.
    #[tactic(auto, unfolding(tracker_rows::specs::Rules::MayJoin, tracker_rows::specs::Gathered::joined, tracker_keeper::specs::Kept::IsPart, crate::specs::Making::IsNextPart))]
    fn join_part(&mut self, alloc: Global, part: &Part) -> Result<bool, Memory>
        requires form { IsPart self.old.made.setup part.now }
        requires next { IsNextPart self.old.format self.old.told self.old.made part.now }
        ensures good { IfOk result (λ good. good ≡ true →
            MayJoin self.old.format self.old.made part.now
            × (self.new ≡ record self.old {
              told = told_with self.old.told part.now;
              made = joined self.old.made part.now;
            })) }
        ensures bad { IfOk result (λ good. good ≡ false →
            ¬ (MayJoin self.old.format self.old.made part.now)) }
    {
        match part {
            Part::Issue {
                no,
                key,
                change,
                at,
                author,
                values,
            } => {
                let values = values.as_slice();
                self.made
                    .join_told_issue(alloc, *no, key, *change, *at, *author, values)
            }
            Part::Group { issue, group } => self.made.join_told_group(alloc, *issue, group),
            Part::Rank { issue, rank } => self.made.join_told_rank(alloc, *issue, rank),
            Part::External { issue, external } => {
                self.made.join_external(alloc, *issue, external.as_str())
            }
            Part::Sprint { no, sprint } => self.made.join_told_sprint(alloc, *no, sprint),
            Part::Filter {
                no,
                owner,
                name,
                jql,
            } => self.made.join_told_filter(alloc, *no, *owner, name, jql),
            Part::Board { no, name, filter } => {
                self.made.join_told_board(alloc, *no, name, *filter)
            }
            Part::Members { group, members } => {
                self.join_members(alloc, *group, members.as_slice())
            }
            Part::Setup { .. } | Part::Present { .. } => Ok(false),
        }
    }
}
