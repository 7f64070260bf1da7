mod balancing;
mod boards;
mod orders;
mod placing;
mod ranked;
mod ranks;
mod sprint_states;
