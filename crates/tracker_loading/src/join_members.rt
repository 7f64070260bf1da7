//! The members of a group that are read.
ghost use Rattle.std.specs.Prelude.{◌≡◌, ◌≢◌, ◌+◌, true, false, map, IfOk};
ghost use Rattle.tracker_keeper.specs.Forms.{IsMembersPart};
ghost use Rattle.tracker_keeper.specs.declared.part.Format.TheVariants.{Second};
ghost use Rattle.tracker_machine.specs.Effect.{with_group_members};

use crate::making::Making;
use crate::progress::Progress;
use field_values::{GroupNo, Memory, UserNo};
use std::alloc::Global;
use tracker_keeper::Format;
use tracker_setting::copy_members;

impl Progress {
    /// Gives the next group its members, or answers false exactly where rows are of the first format.
    pub(crate) fn join_members(
        &mut self,
        alloc: Global,
        group: GroupNo,
        members: &[UserNo],
    ) -> Result<bool, Memory>
        requires form { IsMembersPart self.old.made.setup.users
            (map (λ g. g.name) self.old.made.setup.group) group.0 members.now }
        requires next { self.old.format ≡ Second → group.0 ≡ self.old.told + 1 }
        ensures good { IfOk result (λ good. good ≡ true → (self.old.format ≡ Second)
            × (self.new ≡ record self.old {
              told = self.old.told + 1;
              made = with_group_members self.old.made group members.now;
            })) }
        ensures bad { IfOk result (λ good. good ≡ false → self.old.format ≢ Second) }
    {
        match self.format {
            Format::First => Ok(false),
            Format::Second => {
                self.made.regroup(alloc, group, members)?;
                self.told = usize::from(group.0);
                Ok(true)
            }
        }
    }
}

impl Making {
    // Gives a group these members in place of those that it has.
    fn regroup(&mut self, alloc: Global, group: GroupNo, members: &[UserNo]) -> Result<(), Memory>
        requires { IsMembersPart self.old.setup.users
            (map (λ g. g.name) self.old.setup.group) group.0 members.now }
        ensures { IfOk result (λ done. self.new ≡ with_group_members self.old group members.now) }
    {
        let members = copy_members(alloc, members)?;
        self.setup.set_members(group, members);
        Ok(())
    }
}
