ghost use Rattle.std.specs.Prelude.{◌≡◌, ◌≤◌, ◌<◌, ◌-◌, ◌∷◌, ◌++◌, [], IfOk, OnOk, length, map, slice_set, true, vec_capacity};
ghost use Rattle.field_values.specs.GroupMembers.{is_user_list};
ghost use Rattle.fields.specs.SetupParts.{parts};
ghost use Rattle.jql_meaning.specs.Surroundings.{surroundings_of};
ghost use Rattle.tracker_machine.specs.Effect.{regrouped};
ghost use Rattle.tracker_machine.specs.Search.{surroundings_in};

use fields::{Group, GroupNo, Memory, Sequence, Setup, SprintNo, UserNo};
use jql_bound::{Context, Phase};
use std::alloc::Global;

/// The setup, and what queries ask of it.
#[derive(Drop)]
pub struct Setting {
    pub setup: Setup,
    /// What queries ask of beside issues.
    pub context: Context,
    // The context is the setup's, but for the phases of sprints.
    pub ghost agree: { surroundings_of context
        ≡ record (surroundings_in (parts setup) []) { sprints = context.sprints.items } },
}

impl Setting {
    /// The setup with its groups and its calendar as queries ask of them, and with no sprint.
    pub fn of(alloc: Global, setup: Setup) -> Result<Setting, Memory>
        ensures setup { IfOk result (λ setting. setting.setup ≡ setup) }
        ensures sprints { IfOk result (λ setting. setting.context.sprints.items ≡ []) }
    {
        let context = context_with(alloc, &setup, Vec::new(alloc))?;
        Ok(Setting { setup, context })
    }

    /// Makes room for the phase of one more sprint, or leaves all but the room as it is.
    pub fn reserve_phase(&mut self) -> Result<(), Memory>
        ensures room { OnOk result (length self.new.context.sprints.items
            < vec_capacity self.new.context.sprints) }
        ensures setup { self.new.setup ≡ self.old.setup }
        ensures context { surroundings_of self.new.context ≡ surroundings_of self.old.context }
    {
        self.context.sprints.reserve(1)?;
        Ok(())
    }

    /// One more sprint has come, which is future. It takes no memory.
    pub fn add_phase(&mut self)
        requires { length self.old.context.sprints.items < vec_capacity self.old.context.sprints }
        ensures setup { self.new.setup ≡ self.old.setup }
        ensures context { surroundings_of self.new.context
            ≡ record (surroundings_of self.old.context) {
              sprints = self.old.context.sprints.items ++ Phase.Future ∷ [];
            } }
    {
        self.context.sprints.push_reserved(Phase::Future);
    }

    /// A sprint that is there has come to this phase.
    pub fn set_phase(&mut self, sprint: SprintNo, phase: Phase)
        requires first { 0 < sprint.0 }
        requires there { sprint.0 - 1 < length self.old.context.sprints.items }
        ensures setup { self.new.setup ≡ self.old.setup }
        ensures context { surroundings_of self.new.context
            ≡ record (surroundings_of self.old.context) {
              sprints = slice_set self.old.context.sprints.items (sprint.0 - 1) phase;
            } }
    {
        self.context.sprints[sprint.0 as usize - 1] = phase;
    }

    /// A group has these members from now on, in the setup's order of users and each once. They are given twice: `asked` goes into
    /// what queries ask of. It takes no memory.
    pub fn set_members(
        &mut self,
        group: GroupNo,
        members: Sequence<UserNo>,
        asked: Sequence<UserNo>,
    )
        // The group is there; groups are numbered from 1.
        requires from_one { 1 ≤ group.0 }
        requires there { group.0 ≤ length self.old.setup.group }
        // Members stand in the setup's order of users, each once, and the same ones are given both
        // times.
        requires in_order { is_user_list (length self.old.setup.users) members ≡ true }
        requires same { asked ≡ members }
        // The setup has them, and its text stays as it was read.
        ensures parts { parts self.new.setup ≡ regrouped (parts self.old.setup) group members }
        ensures text { self.new.setup.text ≡ self.old.setup.text }
        // Queries ask of what the setup has now, and sprints are in the phases that they were in.
        ensures context { surroundings_of self.new.context
            ≡ record (surroundings_in (parts self.new.setup) []) {
              sprints = self.old.context.sprints.items;
            } }
    {
        self.setup.set_members(group, members);
        self.context.members[usize::from(group.0) - 1] = asked;
    }
}

/// What queries ask of the setup, and these sprints by number from 1.
#[tactic(auto, using(crate::proofs::Surrounding::members_in_order))]
pub fn context_with(alloc: Global, setup: &Setup, sprints: Vec<Phase>) -> Result<Context, Memory>
    ensures { IfOk result (λ context. surroundings_of context
        ≡ record (surroundings_in (parts setup.now) []) { sprints = sprints.items }) }
{
    let members = members_of(alloc, setup.group.as_slice())?;
    let calendar = setup.calendar().copy(alloc)?;
    Ok(Context {
        sprints,
        members,
        calendar,
    })
}

// The users of each group.
fn members_of(alloc: Global, groups: &[Group]) -> Result<Vec<Sequence<UserNo>>, Memory>
    ensures { IfOk result (λ members. members.items ≡ map (λ g. g.members) groups.now) }
{
    let mut members = Vec::new(alloc);
    for group in groups {
        members.push(copy_members(alloc, group.members.as_slice())?)?;
    }
    Ok(members)
}

/// The same users in the same order.
pub fn copy_members(alloc: Global, users: &[UserNo]) -> Result<Sequence<UserNo>, Memory>
    ensures { IfOk result (λ copy. copy ≡ users.now) }
{
    let mut copy = Sequence::new(alloc);
    for user in users {
        copy.push(*user)?;
    }
    Ok(copy)
}
