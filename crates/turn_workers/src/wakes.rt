/// What was told, where it says whether the worker that looks after the value is to look. No contract rests on it.
///
/// That worker sleeps until something that was told wakes it, so nothing that it could do may become doable in silence: after each
/// call that leaves something for it, the answer says so, also where an earlier call's answer said it before.
pub trait Wakes {
    /// Whether there may be something to do.
    fn wakes(&self) -> bool;
}
