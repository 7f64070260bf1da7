// What rows go by.
use field_values::Memory;
use fields::Setup;
use jql_bound::{Context, Phase};
use std::alloc::Global;
use tracker_setting::context_with;

/// How far the sprints have come, by number from 1.
const SPRINTS: [Phase; 3] = [Phase::Closed, Phase::Active, Phase::Future];

/// A setup, and what queries ask of beside issues under it.
#[derive(Drop)]
pub struct Setting {
    pub setup: Box<Setup>,
    pub context: Context,
}

impl Setting {
    /// What rows go by under the setup.
    pub fn of(alloc: Global, setup: Box<Setup>) -> Result<Box<Setting>, Memory> {
        let context = context_with(alloc, &setup, sprints(alloc)?)?;
        Ok(Box::new(alloc, Setting { setup, context })?)
    }
}

fn sprints(alloc: Global) -> Result<Vec<Phase>, Memory> {
    let mut sprints = Vec::new(alloc);
    for phase in SPRINTS {
        sprints.push(phase)?;
    }
    Ok(sprints)
}
