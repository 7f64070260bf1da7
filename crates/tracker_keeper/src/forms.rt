// The forms of balances.
ghost use Rattle.std.specs.Prelude.{◌≡◌, ◌<◌};
ghost use Rattle.rank_balancer.specs.Balance.{next_bucket};
ghost use Rattle.tracker_keeper.specs.Forms.{is_balance};

use rank_balancer::Balance;

/// The next bucket in the circle 0, 1, 2, 0.
pub(crate) fn next_bucket(bucket: u8) -> u8
    requires { bucket < 3 }
    ensures { result ≡ next_bucket bucket }
{
    if bucket == 2 { 0 } else { bucket + 1 }
}

/// Whether the balance's buckets are 0, 1 or 2, and it goes to the next one.
pub(crate) fn is_balance(balance: Balance) -> bool
    ensures { result ≡ is_balance balance }
{
    match balance {
        Balance::Idle(bucket) => bucket < 3,
        Balance::Moving { from, to } => from < 3 && to == next_bucket(from),
    }
}
