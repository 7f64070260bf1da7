use crate::numbers::{ChoiceNo, GroupNo, UserNo};
use crate::rules::{Condition, PostFunction, Validator};
use crate::sequence::Sequence;
use crate::text::Text;

/// A group of users.
pub struct Group {
    pub name: Text,
    /// In the setup's order of users, each once.
    pub members: Sequence<UserNo>,
}

// Written by hand, so that whoever lets one go makes one call, and its proof takes one step there.
impl Drop for Group {
    fn drop(self) {
        let Group {
            name: _,
            members: _,
        } = self;
    }
}

/// A project, and the groups that have each permission in it.
pub struct Project {
    pub key: Text,
    pub lead: UserNo,
    pub browse: Sequence<GroupNo>,
    pub create: Sequence<GroupNo>,
    pub edit: Sequence<GroupNo>,
    pub transition: Sequence<GroupNo>,
    pub rank: Sequence<GroupNo>,
}

// Written by hand, so that whoever lets one go makes one call, and its proof takes one step there.
impl Drop for Project {
    fn drop(self) {
        let Project {
            key: _,
            lead: _,
            browse: _,
            create: _,
            edit: _,
            transition: _,
            rank: _,
        } = self;
    }
}

/// A way from some statuses to one.
pub struct Transition {
    pub name: Text,
    pub from: Sequence<ChoiceNo>,
    pub to: ChoiceNo,
    pub conditions: Sequence<Condition>,
    pub validators: Sequence<Validator>,
    pub post: Sequence<PostFunction>,
}

// Written by hand, so that whoever lets one go makes one call, and its proof takes one step there.
impl Drop for Transition {
    fn drop(self) {
        let Transition {
            name: _,
            from: _,
            to: _,
            conditions: _,
            validators: _,
            post: _,
        } = self;
    }
}
