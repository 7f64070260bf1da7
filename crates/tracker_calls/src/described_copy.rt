// Copies of descriptions.
ghost use Rattle.std.specs.Prelude.{◌≡◌, IfOk};

use crate::copied::{Copied, copy_all};
use crate::described::{
    DescribedParts, Description, ToldField, ToldGroup, ToldProject, ToldStatus, ToldTransition,
};
use crate::reply_copy::names_if_any;
use field_values::{Memory, Permission};
use std::alloc::Global;

impl Description {
    /// Another of the same.
    pub fn copy(&self, alloc: Global) -> Result<Self, Memory>
        ensures { IfOk result (λ d. d ≡ self.now) }
    {
        let parts = copy_parts(alloc, self.parts())?;
        Description::of(alloc, parts)
    }
}

fn copy_parts(alloc: Global, parts: &DescribedParts) -> Result<DescribedParts, Memory>
    ensures { IfOk result (λ copy. copy ≡ parts.now) }
{
    let fields = copy_all(alloc, &parts.fields)?;
    let first_status = parts.first_status.copy(alloc)?;
    let groups = copy_all(alloc, &parts.groups)?;
    let projects = copy_all(alloc, &parts.projects)?;
    let rebalancer = parts.rebalancer.copy(alloc)?;
    let statuses = copy_all(alloc, &parts.statuses)?;
    let transitions = copy_all(alloc, &parts.transitions)?;
    let user = parts.user.copy(alloc)?;
    let users = parts.users.copy(alloc)?;
    Ok(DescribedParts {
        administer: parts.administer,
        fields,
        first_status,
        groups,
        moment: parts.moment,
        offset_minutes: parts.offset_minutes,
        plan: parts.plan,
        projects,
        rebalancer,
        statuses,
        transitions,
        user,
        users,
        week_starts: parts.week_starts,
    })
}

impl Copied for ToldField {
    fn copy(&self, alloc: Global) -> Result<Self, Memory> {
        let name = self.name.copy(alloc)?;
        let options = names_if_any(alloc, self.options.as_ref())?;
        Ok(ToldField {
            kind: self.kind,
            name,
            number: self.number,
            options,
        })
    }
}

impl Copied for ToldGroup {
    fn copy(&self, alloc: Global) -> Result<Self, Memory> {
        let group = self.group.copy(alloc)?;
        let members = self.members.copy(alloc)?;
        Ok(ToldGroup { group, members })
    }
}

impl Copied for ToldProject {
    fn copy(&self, alloc: Global) -> Result<Self, Memory> {
        let key = self.key.copy(alloc)?;
        let lead = self.lead.copy(alloc)?;
        let may = copy_all(alloc, &self.may)?;
        Ok(ToldProject { key, lead, may })
    }
}

impl Copied for Permission {
    fn copy(&self, _alloc: Global) -> Result<Self, Memory> {
        Ok(*self)
    }
}

impl Copied for ToldStatus {
    fn copy(&self, alloc: Global) -> Result<Self, Memory> {
        let status = self.status.copy(alloc)?;
        Ok(ToldStatus {
            category: self.category,
            status,
        })
    }
}

impl Copied for ToldTransition {
    fn copy(&self, alloc: Global) -> Result<Self, Memory> {
        let conditions = self.conditions.copy(alloc)?;
        let from = self.from.copy(alloc)?;
        let post = self.post.copy(alloc)?;
        let to = self.to.copy(alloc)?;
        let transition = self.transition.copy(alloc)?;
        let validators = self.validators.copy(alloc)?;
        Ok(ToldTransition {
            conditions,
            from,
            post,
            to,
            transition,
            validators,
        })
    }
}
