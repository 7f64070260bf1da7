// The JSON of answers about ranks and their balance.
ghost use Rattle.std.specs.Prelude.{◌≡◌, OnOk};
ghost use Rattle.reply_texts.specs.Reply.{move_data, ranked_data, ranks_data};
ghost use Rattle.reply_texts.specs.Reply.{rebalance_start_data, rebalance_step_data};
ghost use Rattle.reply_texts.specs.Reply.{balance_data};
ghost use Rattle.json_texts.specs.JsonTokens.{after};

use crate::list_json::{Listed, write_list};
use field_values::Memory;
use json_texts::JsonText;
use tracker_calls::{BalanceState, RankedKey, ToldText};

/// Writes the rank that an issue was given.
pub fn write_move(out: &mut JsonText, issue: &ToldText, rank: &ToldText) -> Result<(), Memory>
    ensures { OnOk result (out.new ≡ after (move_data issue.now rank.now) out.old) }
{
    out.begin_object()?;
    out.text_member("issue", issue.as_str())?;
    out.text_member("rank", rank.as_str())?;
    out.end_object()
}

/// Writes a part of the ranks.
pub fn write_ranks(out: &mut JsonText, ranks: &[RankedKey], total: u64) -> Result<(), Memory>
    ensures { OnOk result (out.new ≡ after (ranks_data ranks.now total) out.old) }
{
    out.begin_object()?;
    out.key("ranks")?;
    write_list(out, ranks)?;
    out.number_member("total", total)?;
    out.end_object()
}

// A key and its rank.
impl Listed for RankedKey {
    ghost as_data = { ranked_data };

    fn write(&self, out: &mut JsonText) -> Result<(), Memory> {
        out.begin_array()?;
        out.text(self.issue.as_str())?;
        out.text(self.rank.as_str())?;
        out.end_array()
    }
}

/// Writes the two buckets of a rebalancing.
pub fn write_rebalance_start(out: &mut JsonText, from: u8, to: u8) -> Result<(), Memory>
    ensures { OnOk result (out.new ≡ after (rebalance_start_data from to) out.old) }
{
    out.begin_object()?;
    out.number_member("from", u64::from(from))?;
    out.number_member("to", u64::from(to))?;
    out.end_object()
}

/// Writes what a step did.
pub fn write_rebalance_step(out: &mut JsonText, left: u64, moved: u64) -> Result<(), Memory>
    ensures { OnOk result (out.new ≡ after (rebalance_step_data left moved) out.old) }
{
    out.begin_object()?;
    out.number_member("left", left)?;
    out.number_member("moved", moved)?;
    out.end_object()
}

/// Writes how the balance stands.
pub fn write_balance(
    out: &mut JsonText,
    state: BalanceState,
    longest: u64,
    offer: bool,
) -> Result<(), Memory>
    ensures { OnOk result (out.new ≡ after (balance_data state longest offer) out.old) }
{
    match state {
        BalanceState::Idle { bucket } => write_idle(out, bucket, longest, offer),
        BalanceState::Moving { from, left, to } => {
            write_moving(out, from, left, to, longest, offer)
        }
    }
}

fn write_idle(out: &mut JsonText, bucket: u8, longest: u64, offer: bool) -> Result<(), Memory>
    ensures { OnOk result
        (out.new ≡ after (balance_data (BalanceState.Idle bucket) longest offer) out.old) }
{
    out.begin_object()?;
    out.number_member("bucket", u64::from(bucket))?;
    out.number_member("longest", longest)?;
    out.boolean_member("offer", offer)?;
    out.text_member("state", "idle")?;
    out.end_object()
}

fn write_moving(
    out: &mut JsonText,
    from: u8,
    left: u64,
    to: u8,
    longest: u64,
    offer: bool,
) -> Result<(), Memory>
    ensures { OnOk result
        (out.new ≡ after (balance_data (BalanceState.Moving from left to) longest offer) out.old) }
{
    out.begin_object()?;
    out.number_member("from", u64::from(from))?;
    out.number_member("left", left)?;
    out.number_member("longest", longest)?;
    out.boolean_member("offer", offer)?;
    out.text_member("state", "moving")?;
    out.number_member("to", u64::from(to))?;
    out.end_object()
}
